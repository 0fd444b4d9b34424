//! The members of a group, as a script names them.
ghost use Rattle.std.specs.Prelude.{◌≡◌, ℕ, List, IfSome, IfNone, IfOk};
ghost use Rattle.script_syntax.specs.Parts.{text_of};
ghost use Rattle.script_syntax.specs.Words.{words_left};
ghost use Rattle.script_syntax.specs.Spelling.{member_word, IsClassWord, IsWritableMember, AreMemberWords, ClassAndMembers};

use crate::command::Named;
use crate::number::number_of;
use crate::parts::{DOT, SPACE, cut};
use crate::words::is_end;
use flat_machine::Class;
use std::alloc::{AllocError, Global};

/// The fewest members of a group.
const FEWEST_MEMBERS: usize = 3;

/// The most members of a group.
const MOST_MEMBERS: usize = 8;

// The member that the word names, if it names one.
fn member_of(word: &[u8]) -> Option<Named>
    ensures some { IfSome result (λ member. IsWritableMember member × (word.now ≡ member_word member)) }
    ensures none { IfNone result ((member : Named) → IsWritableMember member → word.now ≡ member_word member → ⊥) }
{
    let (drive, rest) = cut(word, DOT);
    let Some(extent) = rest else { return None };
    let Some(drive) = number_of(drive) else {
        return None
    };
    let Some(extent) = number_of(extent) else {
        return None
    };
    Some(Named { drive, extent })
}

// The members that the remaining words name, three to eight of them.
fn members_of(alloc: Global, text: Option<&[u8]>) -> Result<Option<Vec<Named>>, AllocError>
    ensures some { IfOk result (λ found. IfSome found (λ members.
        AreMemberWords members.items (words_left (text_of text.entry)))) }
    ensures none { IfOk result (λ found. IfNone found ((members : List Named) →
        AreMemberWords members (words_left (text_of text.entry)) → ⊥)) }
{
    let mut members = Vec::new(alloc);
    let mut rest = text;
    // No more than eight are allocated: a line may name thousands.
    for _ in 0..MOST_MEMBERS {
        let Some(text) = rest else {
            return Ok(if members.len() < FEWEST_MEMBERS {
                None
            } else {
                Some(members)
            });
        };
        let (word, following) = cut(text, SPACE);
        let Some(member) = member_of(word) else {
            return Ok(None)
        };
        members.push(member)?;
        rest = following;
    }
    Ok(if is_end(rest) { Some(members) } else { None })
}

/// The class and the three to eight members that the remaining words name.
pub fn class_and_members(
    alloc: Global,
    text: Option<&[u8]>,
) -> Result<Option<(Class, Vec<Named>)>, AllocError>
    ensures some { IfOk result (λ found. IfSome found (λ group.
        ClassAndMembers group.0 group.1.items (words_left (text_of text.entry)))) }
    ensures none { IfOk result (λ found. IfNone found ((class : Class) (members : List Named) →
        ClassAndMembers class members (words_left (text_of text.entry)) → ⊥)) }
{
    let Some(text) = text else { return Ok(None) };
    let (word, rest) = cut(text, SPACE);
    let Some(class) = class_of(word) else {
        return Ok(None)
    };
    let Some(members) = members_of(alloc, rest)? else {
        return Ok(None)
    };
    Ok(Some((class, members)))
}

// The class that the word names, if it names one.
fn class_of(word: &[u8]) -> Option<Class>
    ensures some { IfSome result (λ class. IsClassWord class word.now) }
    ensures none { IfNone result ((class : Class) → IsClassWord class word.now → ⊥) }
{
    if word == b"m".as_slice() {
        return Some(Class::Mirrored);
    }
    if word == b"p".as_slice() {
        return Some(Class::Parity);
    }
    None
}
