//! Names that the heap knows, as `length`.

ghost use Rattle.std.specs.Prelude.{◌≡◌};
ghost use Rattle.actx_heap.specs.Texts.{same_text};
ghost use Rattle.actx_heap.specs.Properties.{is_inherited};

use actx_data::Units;

/// Whether a text is this word of ASCII characters.
pub fn is_word(text: &Units, word: &[u8]) -> bool
    ensures { result ≡ same_text text.now word.now }
{
    let units = text.as_slice();
    if units.len() != word.len() {
        return false;
    }
    for (i, unit) in units.iter().enumerate() {
        if *unit != u16::from(word[i]) {
            return false;
        }
    }
    true
}

/// Whether a text is one of the names of Object.prototype (ECMA-262, 20.1.3 and B.2.2).
pub fn is_inherited(name: &Units) -> bool
    ensures { result ≡ is_inherited name.now }
{
    is_word(name, b"constructor")
        || is_word(name, b"hasOwnProperty")
        || is_word(name, b"isPrototypeOf")
        || is_word(name, b"propertyIsEnumerable")
        || is_word(name, b"toLocaleString")
        || is_word(name, b"toString")
        || is_word(name, b"valueOf")
        || is_word(name, b"__proto__")
        || is_word(name, b"__defineGetter__")
        || is_word(name, b"__defineSetter__")
        || is_word(name, b"__lookupGetter__")
        || is_word(name, b"__lookupSetter__")
}
