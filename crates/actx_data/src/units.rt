//! UTF-16 code units, the texts of a program (ECMA-262, 6.1.4).

ghost use Rattle.std.specs.Prelude.{◌≡◌, ◌<◌, ◌==◌, ◌↔◌, IsTrue, List, ℕ, length, slice_index, IfOk, string_bytes};
ghost use Rattle.std.proofs.Common.{rules};
ghost use Rattle.std.specs.Cmp.Rules.{comparing, hashing};
ghost use Rattle.std.specs.Cmp.Lexicographic.{pointwise};
ghost use Rattle.std.specs.Hash as fed;
ghost use Rattle.std.specs.Char.Utf16.{utf16_lossy_chars};
ghost use Rattle.std.specs.Str.{encode_utf8_all};
ghost use Rattle.actx_data.specs.Units.{joined};

use super::{NoMemory, Twin};
use std::alloc::Global;
use std::hash::{Hash, Hasher};
use std::marker::Model;

/// The greatest number of units of a text.
const LONGEST: usize = 1_048_576;

/// UTF-16 code units; surrogates without a partner are allowed.
#[derive(Debug, Drop)]
pub struct Units {
    list: Vec<u16>,
}

impl Model for Units {
    ghost Value = { List ℕ };

    ghost view = { λ u. u.list.items };
}

impl Units {
    /// The units of a list.
    pub fn from_list(alloc: Global, units: &[u16]) -> Result<Units, NoMemory>
        ensures { IfOk result (λ u. u ≡ units.now) }
    {
        let list = Vec::from_slice(alloc, units)?;
        Ok(Units { list })
    }

    /// The units of a list that is handed over; no memory is taken.
    pub fn from_vec(list: Vec<u16>) -> Units
        ensures { result ≡ list.items }
    {
        Units { list }
    }

    /// How many units there are.
    pub fn len(&self) -> usize
        ensures { result ≡ length self.now }
    {
        self.list.len()
    }

    /// Whether there is none.
    pub fn is_empty(&self) -> bool
        ensures { result ≡ (length self.now == 0) }
    {
        self.list.is_empty()
    }

    /// The unit at a place, counted from 0.
    pub fn unit(&self, at: usize) -> u16
        requires { at < length self.now }
        ensures { result ≡ slice_index self.now at }
    {
        self.list[at]
    }

    /// All units, in order.
    pub fn as_slice(&self) -> &[u16]
        ensures { result.now ≡ self.now }
    {
        self.list.as_slice()
    }

    /// The text as UTF-8, with U+FFFD for each surrogate without its partner.
    pub fn to_text(&self, alloc: Global) -> Result<String, NoMemory>
        ensures { IfOk result (λ s. string_bytes s ≡ encode_utf8_all (utf16_lossy_chars self.now)) }
    {
        let text = String::from_utf16_lossy(alloc, self.list.as_slice())?;
        Ok(text)
    }
}

impl Twin for Units {
    ghost same = { λ a b. a ≡ b };

    fn copy(&self, alloc: Global) -> Result<Units, NoMemory> {
        Units::from_list(alloc, self.list.as_slice())
    }
}

impl PartialEq for Units {
    ghost eq = { pointwise ◌==◌ };

    ghost laws = { Prim.search (comparing, rules) };

    fn eq(&self, other: &Units) -> bool {
        self.list.as_slice() == other.list.as_slice()
    }
}

impl Eq for Units {
    ghost laws = { Prim.search (comparing, rules) };
}

impl Hash for Units {
    ghost hash_input = { fed.slice fed.u16 };

    ghost respects_eq = { Prim.search (hashing, rules) };

    fn hash<H: Hasher>(&self, state: &mut H) {
        self.list.as_slice().hash(state);
    }
}

/// One text behind another; `None` exactly where that is longer than 1,048,576 units.
pub fn join(alloc: Global, a: &Units, b: &Units) -> Result<Option<Units>, NoMemory>
    ensures { IfOk result (λ found. found ≡ joined a.now b.now) }
{
    if a.len() > LONGEST || b.len() > LONGEST - a.len() {
        return Ok(None);
    }
    let mut list = Vec::with_capacity(alloc, a.len() + b.len())?;
    list.extend_from_slice(a.as_slice())?;
    list.extend_from_slice(b.as_slice())?;
    Ok(Some(Units { list }))
}

#[cfg(test)]
mod tests {
    use super::*;
    use std::test::Fail;

    #[test]
    fn joined_texts_end_at_the_longest(rt: HostRuntime) -> Result<(), Fail> {
        let long = Units::from_vec(vec![in rt.alloc(); 97u16; 1_048_575]?);
        let one = Units::from_list(rt.alloc(), &[98])?;
        let two = Units::from_list(rt.alloc(), &[98, 99])?;
        let Some(longest) = join(rt.alloc(), &long, &one)? else {
            return Err(Fail::from("1,048,576 units are a text"));
        };
        assert_eq!(rt; longest.len(), 1_048_576);
        assert_eq!(rt; longest.as_slice().last(), Some(&98));
        assert!(rt; join(rt.alloc(), &long, &two)?.is_none());
        assert!(rt; join(rt.alloc(), &two, &long)?.is_none());
        Ok(())
    }

    #[test]
    fn units_are_seen_as_their_list(rt: HostRuntime) -> Result<(), Fail> {
        let none = Units::from_list(rt.alloc(), &[])?;
        assert!(rt; none.is_empty());
        let half = Units::from_list(rt.alloc(), &[0xD83D, 0xDE00, 0xD800])?;
        assert!(rt; half.len() == 3 && !half.is_empty());
        assert_eq!(rt; half.unit(2), 0xD800);
        let text = half.to_text(rt.alloc())?;
        assert_eq!(rt; text.as_str(), "\u{1F600}\u{FFFD}");
        let twin = half.copy(rt.alloc())?;
        assert!(rt; twin == half && half != none);
        Ok(())
    }
}
