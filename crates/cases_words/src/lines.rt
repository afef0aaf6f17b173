// Command lines, and what is read from them.
use case_rows::{bytes_of, fields};
use command_options::bad_word;
use front_config::read_words;
use serve_config::read_serve;
use std::alloc::{AllocError, Global};

fn word_of(alloc: Global, word: &str) -> Result<String, AllocError> {
    if word == "''" {
        return Ok(String::new(alloc));
    }
    let bytes = bytes_of(alloc, word);
    match str::from_utf8(bytes.as_slice()) {
        Ok(text) => String::from_str(alloc, text),
        Err(_) => Ok(String::new(alloc)),
    }
}

/// The words of a command line after the program's name. They stand between spaces, and `''` is an empty one.
pub fn words_of(alloc: Global, line: &str) -> Result<Vec<String>, AllocError> {
    let mut words = Vec::new(alloc);
    for word in line.split(' ').skip(1) {
        words.push(word_of(alloc, word)?)?;
    }
    Ok(words)
}

/// What `explain` is asked for.
pub fn explain(alloc: Global, line: &str) -> Result<String, AllocError> {
    let words = words_of(alloc, line)?;
    let asked = read_words(alloc, &words);
    let text = format!(in alloc; "{asked:?}\n");
    drop(asked);
    text
}

/// What `serve` is asked for.
pub fn serve(alloc: Global, line: &str) -> Result<String, AllocError> {
    let words = words_of(alloc, line)?;
    let asked = read_serve(alloc, &words);
    let text = format!(in alloc; "{asked:?}\n");
    drop(asked);
    text
}

/// The first word that is wrong in a command line of a command: the fields are the command, and the line.
pub fn first_bad_word(alloc: Global, row: &str) -> Result<String, AllocError> {
    let (command, line) = fields(row);
    let words = words_of(alloc, line)?;
    let bad = bad_word(command, words.as_slice());
    let text = format!(in alloc; "{bad:?}\n");
    drop(bad);
    text
}
