// Keyword names with one space between.
ghost use Rattle.std.specs.Prelude.{◌≡◌, ◌≤◌, ◌++◌, ◌&&◌, true, not, nat_le, OnOk, IfOk, IfSome, length};
ghost use Rattle.std.specs.List.{before_first, after_first, list_all, list_any};
ghost use Rattle.mail_fields.specs.Keyword.{same_keyword, is_keyword};
ghost use Rattle.mail_fields.specs.Names.{is_space, are_distinct};
ghost use Rattle.mix_files.specs.Names.{names_of, names_text};

use mail_fields::{Keyword, Keywords, is_taken, split_at_space};
use std::alloc::{AllocError, Global};

// The names that a text is.
pub(crate) fn read_names(alloc: Global, text: &[u8]) -> Result<Option<Keywords>, AllocError>
    ensures value { IfOk result (λ found. found ≡ names_of text.now) }
    ensures few { IfOk result (λ found. IfSome found (λ names. length names ≤ 30)) }
    ensures differ { IfOk result (λ found. IfSome found (λ names. are_distinct names ≡ true)) }
{
    let mut names = Vec::new(alloc);
    let mut rest = text;
    let mut is_more = !text.is_empty();
    while is_more {
        let (name, behind) = split_at_space(rest);
        is_more = name.len() < rest.len();
        rest = behind;
        let Some(keyword) = Keyword::read(alloc, name)? else {
            return Ok(None);
        };
        if !may_follow(names.as_slice(), &keyword) {
            return Ok(None);
        }
        names.push(keyword)?;
    }
    Ok(Some(Keywords::of(names)))
}

// Whether fewer than 30 names stand before a name, and none of them is the same.
fn may_follow(names: &[Keyword], name: &Keyword) -> bool
    ensures { result ≡ (not (nat_le 30 (length names.now)) && not (list_any (λ each. same_keyword each name.now) names.now)) }
{
    names.len() < 30 && !is_taken(names, name)
}

// Appends names, which are those of keywords.
pub(crate) fn put_names(out: &mut Vec<u8>, names: &[Keyword]) -> Result<(), AllocError>
    ensures text { OnOk result (out.new.items ≡ out.old.items ++ names_text names.now) }
    ensures keywords { OnOk result (list_all is_keyword names.now ≡ true) }
{
    let Some((first, others)) = names.split_first() else {
        return Ok(());
    };
    out.extend_from_slice(first.as_slice())?;
    for name in others {
        out.extend_from_slice(b" ")?;
        out.extend_from_slice(name.as_slice())?;
    }
    Ok(())
}
