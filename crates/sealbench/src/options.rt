// The words of the command line.
ghost use Rattle.std.specs.Prelude.{◌≤◌, length};

use crate::failure::Failure;
use blake2::Variant;
use std::alloc::Global;
use std::slice::Iter;

// What is to be done.
#[derive(Drop)]
pub enum Command {
    Example,
    Help,
    Digest(DigestOptions),
    // The label in this file.
    Label(String),
}

// How files are digested. A length or a key that the variant does not allow is refused when a stream begins.
#[derive(Drop)]
pub struct DigestOptions {
    pub variant: Variant,
    pub bytes: Option<usize>,
    pub key: Option<String>,
    pub files: Vec<String>,
}

pub(crate) fn read(heap: Global, words: &[String]) -> Result<Command, Failure> {
    let [name, rest @ ..] = words else {
        return Ok(Command::Example);
    };
    match name.as_str() {
        "digest" => Ok(Command::Digest(read_digest(heap, rest)?)),
        "label" => read_label(rest),
        "help" | "--help" | "-h" => Ok(Command::Help),
        _ => Err(Failure::Usage("there is no such command")),
    }
}

fn read_label(words: &[String]) -> Result<Command, Failure> {
    match words {
        [file] => Ok(Command::Label(file.clone()?)),
        _ => Err(Failure::Usage("label wants one file")),
    }
}

fn read_digest(heap: Global, words: &[String]) -> Result<DigestOptions, Failure> {
    let mut options = DigestOptions {
        variant: Variant::B,
        bytes: None,
        key: None,
        files: Vec::new(heap),
    };
    let mut words = words.iter();
    while let Some(word) = words.next() {
        match word.as_str() {
            "--variant" => options.variant = read_variant(value(&mut words)?.as_str())?,
            "--bytes" => options.bytes = Some(read_number(value(&mut words)?.as_str())?),
            "--key" => options.key = Some(value(&mut words)?.clone()?),
            name if name.starts_with("--") => {
                return Err(Failure::Usage("an option is unknown or wants a value"));
            }
            _ => options.files.push(word.clone()?)?,
        }
    }
    if options.files.is_empty() {
        return Err(Failure::Usage("digest wants a file"));
    }
    Ok(options)
}

// The value of an option: the word after it.
fn value<'a>(words: &mut Iter<'a, String>) -> Result<&'a String, Failure>
    ensures { length words.new.rest.now ≤ length words.old.rest.now }
{
    words
        .next()
        .ok_or(Failure::Usage("an option is unknown or wants a value"))
}

fn read_variant(word: &str) -> Result<Variant, Failure> {
    Variant::try_from(word.as_bytes()).map_err(|_| Failure::Usage("--variant is b or s"))
}

fn read_number(word: &str) -> Result<usize, Failure> {
    word.parse::<usize>()
        .map_err(|_| Failure::Usage("--bytes wants a number"))
}
