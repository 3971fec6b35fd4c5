ghost use Rattle.std.specs.Prelude.{◌≡◌, ◌≤◌, ◌⊎◌, drop, length, true, IfOk, IfErr, Ok, Err};
ghost use Rattle.lua_pattern.specs.Element.{Members};
ghost use Rattle.lua_pattern.specs.declared.fault.PatternFault.TheVariants.{Memory};

use crate::PatternFault;
use crate::class::Member;
use crate::element::{Element, element_at};
use love_base::List;
use std::alloc::Global;

// The members of a set from its text, and how many bytes they and the closing bracket take.
pub(crate) fn members(alloc: Global, text: &[u8]) -> Result<(List<Member>, usize), PatternFault>
    ensures ok { IfOk result (λ read.
        Members true text.now (Ok (read.0, drop read.1 text.now)) × (read.1 ≤ length text.now)) }
    ensures fault { IfErr result (λ fault.
        (fault ≡ Memory) ⊎ Members true text.now (Err fault)) }
{
    let mut members = List::new(alloc);
    let mut at = 0;
    loop {
        match element_at(at == 0, &text[at..]) {
            Element::Is(member, length) => {
                members.push(member)?;
                at += length;
            }
            Element::Closing => return Ok((members, at + 1)),
            Element::Unclosed => return Err(PatternFault::MissingBracket),
            Element::LonePercent => return Err(PatternFault::EndsWithPercent),
        }
    }
}
