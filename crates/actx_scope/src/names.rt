//! Names and keys that the static rules speak of, as `eval`, which no program binds or uses.

ghost use Rattle.std.specs.Prelude.{◌≡◌, codes};
ghost use Rattle.actx_grammar.specs.Static.{same_name, is_among, unusable, unbindable, inherited};

use actx_data::Units;
use actx_grammar::name::Name;

const EVAL: [char; 4] = ['e', 'v', 'a', 'l'];

const ARGUMENTS: [char; 9] = ['a', 'r', 'g', 'u', 'm', 'e', 'n', 't', 's'];

const NAN: [char; 3] = ['N', 'a', 'N'];

const INFINITY: [char; 8] = ['I', 'n', 'f', 'i', 'n', 'i', 't', 'y'];

const UNDEFINED: [char; 9] = ['u', 'n', 'd', 'e', 'f', 'i', 'n', 'e', 'd'];

const CONSTRUCTOR: [char; 11] = ['c', 'o', 'n', 's', 't', 'r', 'u', 'c', 't', 'o', 'r'];

const HAS_OWN_PROPERTY: [char; 14] = [
    'h', 'a', 's', 'O', 'w', 'n', 'P', 'r', 'o', 'p', 'e', 'r', 't', 'y',
];

const IS_PROTOTYPE_OF: [char; 13] = [
    'i', 's', 'P', 'r', 'o', 't', 'o', 't', 'y', 'p', 'e', 'O', 'f',
];

const PROPERTY_IS_ENUMERABLE: [char; 20] = [
    'p', 'r', 'o', 'p', 'e', 'r', 't', 'y', 'I', 's', 'E', 'n', 'u', 'm', 'e', 'r', 'a', 'b', 'l',
    'e',
];

const TO_LOCALE_STRING: [char; 14] = [
    't', 'o', 'L', 'o', 'c', 'a', 'l', 'e', 'S', 't', 'r', 'i', 'n', 'g',
];

const TO_STRING: [char; 8] = ['t', 'o', 'S', 't', 'r', 'i', 'n', 'g'];

const VALUE_OF: [char; 7] = ['v', 'a', 'l', 'u', 'e', 'O', 'f'];

const PROTO: [char; 9] = ['_', '_', 'p', 'r', 'o', 't', 'o', '_', '_'];

const DEFINE_GETTER: [char; 16] = [
    '_', '_', 'd', 'e', 'f', 'i', 'n', 'e', 'G', 'e', 't', 't', 'e', 'r', '_', '_',
];

const DEFINE_SETTER: [char; 16] = [
    '_', '_', 'd', 'e', 'f', 'i', 'n', 'e', 'S', 'e', 't', 't', 'e', 'r', '_', '_',
];

const LOOKUP_GETTER: [char; 16] = [
    '_', '_', 'l', 'o', 'o', 'k', 'u', 'p', 'G', 'e', 't', 't', 'e', 'r', '_', '_',
];

const LOOKUP_SETTER: [char; 16] = [
    '_', '_', 'l', 'o', 'o', 'k', 'u', 'p', 'S', 'e', 't', 't', 'e', 'r', '_', '_',
];

/// The units of `__proto__`.
const PROTO_UNITS: [u16; 9] = [95, 95, 112, 114, 111, 116, 111, 95, 95];

/// Whether a name is this word.
fn is_word(name: &Name, word: &[char]) -> bool
    ensures { result ≡ same_name name.now word.now }
{
    name.as_slice() == word
}

/// Whether no program binds or uses the name: `eval`, `arguments` and two of the global constants.
pub fn is_unusable(name: &Name) -> bool
    ensures { result ≡ is_among unusable name.now }
{
    is_word(name, EVAL.as_slice())
        || is_word(name, ARGUMENTS.as_slice())
        || is_word(name, NAN.as_slice())
        || is_word(name, INFINITY.as_slice())
}

/// Whether no program binds or assigns the name: those, and `undefined`.
pub fn is_unbindable(name: &Name) -> bool
    ensures { result ≡ is_among unbindable name.now }
{
    is_word(name, UNDEFINED.as_slice()) || is_unusable(name)
}

/// Whether every object inherits a property of the name, or it is that of the prototype.
pub fn is_inherited(name: &Name) -> bool
    ensures { result ≡ is_among inherited name.now }
{
    is_word(name, CONSTRUCTOR.as_slice())
        || is_word(name, HAS_OWN_PROPERTY.as_slice())
        || is_word(name, IS_PROTOTYPE_OF.as_slice())
        || is_word(name, PROPERTY_IS_ENUMERABLE.as_slice())
        || is_word(name, TO_LOCALE_STRING.as_slice())
        || is_word(name, TO_STRING.as_slice())
        || is_word(name, VALUE_OF.as_slice())
        || is_word(name, PROTO.as_slice())
        || is_word(name, DEFINE_GETTER.as_slice())
        || is_word(name, DEFINE_SETTER.as_slice())
        || is_word(name, LOOKUP_GETTER.as_slice())
        || is_word(name, LOOKUP_SETTER.as_slice())
}

/// Whether a key of an object literal sets the object's prototype (ECMA-262, B.3.1).
pub fn is_proto(key: &Units) -> bool
    ensures { result ≡ same_name key.now (codes "__proto__") }
{
    key.as_slice() == PROTO_UNITS.as_slice()
}
