//! What a command writes, behind its words.
ghost use Rattle.std.specs.Prelude.{◌≡◌, ◌++◌, OnOk};
ghost use Rattle.dk_html.specs.Outputs.{output};

use crate::escaping::add_escaped;
use crate::pieces::add_words;
use std::alloc::AllocError;

/// Adds the words of a command and the names of its files, which open what it writes, word for word.
pub(crate) fn add_output(
    out: &mut Vec<u8>,
    command: &str,
    name: &[u8],
    text: &[u8],
) -> Result<(), AllocError>
    ensures { OnOk result (out.new.items ≡ out.old.items ++ output command.now name.now text.now) }
{
    add_words(out, "<details><summary><code>")?;
    add_words(out, command)?;
    add_escaped(out, name)?;
    add_words(out, "</code></summary><pre tabindex=\"0\">\n")?;
    add_escaped(out, text)?;
    add_words(out, "</pre></details>\n")?;
    Ok(())
}
