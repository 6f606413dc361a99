//! The two forms of a profile.
ghost use Rattle.std.specs.Prelude.{◌≡◌};
ghost use Rattle.dk_times.specs.Forms.{form_of, is_table_name};

/// The form in which a profile is written.
#[derive(Clone, Copy)]
pub enum Form {
    /// A text, with a step in a line.
    Text,
    /// A table of measured times, with a column for a process and a row for a job.
    Table,
}

fn is_table_name(file: &str) -> bool
    ensures { result ≡ is_table_name file.now }
{
    let bytes = file.as_bytes();
    let count = bytes.len();
    count >= 4
        && bytes[count - 4] == b'.'
        && bytes[count - 3] == b'c'
        && bytes[count - 2] == b's'
        && bytes[count - 1] == b'v'
}

/// The form of the file of this name: a table where it ends with `.csv`, else a text.
pub fn form_of(file: &str) -> Form
    ensures { result ≡ form_of file.now }
{
    if is_table_name(file) {
        Form::Table
    } else {
        Form::Text
    }
}
