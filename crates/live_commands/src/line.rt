// The line that `client` prints.
ghost use Rattle.std.specs.Prelude.{◌≡◌, ◌++◌, IfOk, OnOk};
ghost use Rattle.line_words.specs.Text.{spaced};
ghost use Rattle.live_commands.specs.Lines.{app_words, tag_words, told_line};

use ikeless_tree::{App, Tag};
use ikl_base::{NoMemory, Octets};
use line_words::{put_octet, put_word};
use live_client::Told;
use std::alloc::Global;
use yang_values::put_number;

fn put_tag(out: &mut Vec<u8>, tag: Option<Tag>) -> Result<(), NoMemory>
    ensures { OnOk result (out.new.items ≡ out.old.items ++ spaced (tag_words tag)) }
{
    match tag {
        Some(tag) => put_word(out, tag.text().as_bytes()),
        None => Ok(()),
    }
}

fn put_app(out: &mut Vec<u8>, app: Option<App>) -> Result<(), NoMemory>
    ensures { OnOk result (out.new.items ≡ out.old.items ++ spaced (app_words app)) }
{
    match app {
        Some(app) => put_word(out, app.text().as_bytes()),
        None => Ok(()),
    }
}

/// The line of what is told: the status, and for an error its tag and its app tag.
pub fn line_of(alloc: Global, told: Told) -> Result<Octets, NoMemory>
    ensures { IfOk result (λ line. line ≡ told_line told) }
{
    let mut out = Vec::new(alloc);
    put_number(&mut out, u64::from(told.status))?;
    put_tag(&mut out, told.tag)?;
    put_app(&mut out, told.app)?;
    put_octet(&mut out, b'\n')?;
    Ok(Octets::from_items(out))
}
