//! The emitted text of each form that runs: what stands behind the prelude.

use super::lower_text;
use std::test::Fail;

/// A program, and the text of its own statements.
const EMITTED: [(&str, &str); 11] = [
    ("const a = 1, b = \"x\";", "const p_a = 1 , p_b = \"x\" ;\n"),
    (
        "console.log(1 + 2 * 3, (1 + 2) * 3);",
        "console . log ( 1 + 2 * 3 , ( 1 + 2 ) * 3 ) ;\n",
    ),
    (
        "console.log(((1)) - (2 - 3), 'it');",
        "console . log ( 1 - ( 2 - 3 ) , \"it\" ) ;\n",
    ),
    (
        "const f = (x, y,) => { return x - y; }; f(1, 2,);",
        "const p_f = ( p_x , p_y ) => {\nreturn p_x - p_y ;\n}\n;\np_f ( 1 , 2 ) ;\n",
    ),
    (
        "const f = x => undefined;",
        "const p_f = ( p_x ) => {\nreturn undefined ;\n}\n;\n",
    ),
    ("() => { return; };", "( ) => {\nreturn ;\n}\n;\n"),
    (
        "(x => x)(1);",
        "( ( p_x ) => {\nreturn p_x ;\n}\n) ( 1 ) ;\n",
    ),
    (
        "f(() => 1); const f = g => g();",
        "p_f ( ( ) => {\nreturn 1 ;\n}\n) ;\nconst p_f = ( p_g ) => {\nreturn p_g ( ) ;\n}\n;\n",
    ),
    (
        "const v = new AsyncContext.Variable({ name: 'v', 'defaultValue': 0 }); v.run(1, v.get); v.name;",
        "const p_v = __variable ( {\n\"name\" : \"v\" , \"defaultValue\" : 0 }\n) ;\np_v . run ( 1 , p_v . get ) ;\np_v . name ;\n",
    ),
    ("new AsyncContext.Variable();", "__variable ( ) ;\n"),
    (
        "'a\\u00e9\\\"\\\\\\n\\u{1F600}\\\n';",
        "\"a\\u00e9\\\"\\\\\\u000a\\ud83d\\ude00\" ;\n",
    ),
];

#[test]
fn each_form_has_its_text(rt: HostRuntime) -> Result<(), Fail> {
    let prelude = lower_text(rt.alloc(), b"")?;
    for (text, own) in EMITTED {
        let mut wanted = Vec::from_slice(rt.alloc(), &prelude)?;
        for byte in own.as_bytes() {
            wanted.push(*byte)?;
        }
        let got = lower_text(rt.alloc(), text.as_bytes())?;
        assert_eq!(rt; got.as_slice(), wanted.as_slice(), "{text}");
    }
    Ok(())
}
