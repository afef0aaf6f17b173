// Where a head ends in a stream.
ghost use Rattle.std.specs.Prelude.{◌≡◌, ◌+◌, ◌<◌, ◌≤◌, ◌++◌, ℕ, List, Some, None, length, take, drop, IfSome};
ghost use Rattle.http_head.specs.Answer.{IsBlockAnswer};
ghost use Rattle.http_head.specs.Block as spec;
ghost use Rattle.http_head.specs.EmptyLine.{EndsFirstEmptyLine};

use crate::answer::BlockAnswer;

/// The most bytes that a head's block may have.
pub const MOST_HEAD_BYTES: usize = 65536;

/// The most header lines that a head may have.
pub const MOST_HEADERS: usize = 100;

/// The most lines that a head's block may have: the start line, the header lines and the empty line.
pub const MOST_LINES: usize = 102;

// The length of the leading run of CR and LF.
fn run_len(bytes: &[u8]) -> usize
    ensures value { result ≡ spec.run_len bytes.now }
    ensures within { result ≤ length bytes.now }
{
    match bytes.iter().position(|b| *b != b'\r' && *b != b'\n') {
        Some(i) => i,
        None => bytes.len(),
    }
}

// The length of the line end that the bytes begin with, or 0.
fn end_size(bytes: &[u8]) -> usize
    ensures value { result ≡ spec.end_size bytes.now }
    ensures within { result ≤ length bytes.now }
{
    match bytes {
        [b'\n', ..] => 1,
        [b'\r', b'\n', ..] => 2,
        _ => 0,
    }
}

// The end of the first empty line from a place on.
fn end_from(bytes: &[u8], start: usize) -> Option<usize>
    requires { start ≤ length bytes.now }
    ensures value { result ≡ spec.end_from start (drop start bytes.now) }
    ensures within { IfSome result (λ end. (start ≤ end) × (end ≤ length bytes.now)) }
{
    for i in start..bytes.len() {
        if bytes[i] == b'\n' {
            let size = end_size(&bytes[i + 1..]);
            if 0 < size {
                return Some(i + 1 + size);
            }
        }
    }
    None
}

// How many lines a block has after its leading run.
fn line_count(block: &[u8]) -> usize
    ensures { result ≡ spec.line_count block.now }
{
    let run = run_len(block);
    block[run..].iter().filter(|b| **b == b'\n').count()
}

// The bytes that a head may have.
fn head_bytes(bytes: &[u8]) -> &[u8]
    ensures front { result.now ≡ take MOST_HEAD_BYTES bytes.now }
    ensures few { length result.now ≤ MOST_HEAD_BYTES }
    ensures within { length result.now ≤ length bytes.now }
{
    &bytes[..bytes.len().min(MOST_HEAD_BYTES)]
}

/// How far a stream was searched for the end of a head's block, so that the search goes on as more bytes come: the
/// length of the leading run of CR and LF, and how many bytes were searched.
#[derive(Clone, Copy, Debug, PartialEq, Eq)]
pub struct Search {
    run: usize,
    at: usize,
}

impl Search {
    /// Nothing was searched.
    pub fn new() -> Search
        ensures { (bytes : List ℕ) → spec.IsSearched bytes result }
    {
        Search { run: 0, at: 0 }
    }
}

// The length of the leading run, where the bytes were searched so far.
fn run_on(bytes: &[u8], search: &Search) -> usize
    requires { spec.IsSearched bytes.now search.now }
    ensures value { result ≡ spec.run_len bytes.now }
    ensures within { result ≤ length bytes.now }
{
    if search.run < search.at {
        return search.run;
    }
    search.at + run_len(&bytes[search.at..])
}

// The length of the block that the bytes begin with, where they were searched so far.
fn block_len_on(bytes: &[u8], search: &mut Search) -> Option<usize>
    requires searched { spec.IsSearched bytes.now search.old }
    requires few { length bytes.now ≤ MOST_HEAD_BYTES }
    ensures value { result ≡ spec.block_len bytes.now }
    ensures within { IfSome result (λ len. len ≤ length bytes.now) }
    ensures searched { result ≡ None → spec.IsSearched bytes.now search.new }
{
    let run = run_on(bytes, search);
    let end = end_from(bytes, search.at.saturating_sub(2).max(run));
    search.run = run;
    search.at = bytes.len();
    end
}

// The length of the head's block, where it ends within the bytes that a head may have, and these were searched so far.
fn block_on(bytes: &[u8], search: &mut Search) -> Option<usize>
    requires { spec.IsSearched bytes.now search.old }
    ensures value { result ≡ spec.block_in bytes.now }
    ensures within { IfSome result (λ len. len ≤ length bytes.now) }
    ensures searched { result ≡ None → spec.IsSearched bytes.now search.new }
{
    block_len_on(head_bytes(bytes), search)
}

/// Where the block ends that a stream begins with, where its bytes were searched so far. After `More` the search goes on
/// with more bytes after these, so that the work on a head is linear however it comes. After another answer a new search
/// begins.
pub fn find_block(bytes: &[u8], search: &mut Search) -> BlockAnswer
    requires { spec.IsSearched bytes.now search.old }
    ensures answer { IsBlockAnswer bytes.now result }
    ensures searched { result ≡ BlockAnswer.More → spec.IsSearched bytes.now search.new }
{
    match block_on(bytes, search) {
        Some(length) if line_count(&bytes[..length]) <= MOST_LINES => BlockAnswer::Whole(length),
        None if bytes.len() < MOST_HEAD_BYTES => BlockAnswer::More,
        _ => BlockAnswer::TooLarge,
    }
}

/// What was searched stays searched as more bytes come.
pub fn searches_go_on()
    ensures { (bytes more : List ℕ) (search : Search) → spec.IsSearched bytes search
        → spec.IsSearched (bytes ++ more) search }
{}

/// A head's block stays where it is as more bytes come, and where none ends within the bytes that a head may have, none
/// comes.
pub fn blocks_stay()
    ensures found { (bytes more : List ℕ) (len : ℕ) → spec.block_in bytes ≡ Some len
        → spec.block_in (bytes ++ more) ≡ Some len }
    ensures none { (bytes more : List ℕ) → MOST_HEAD_BYTES ≤ length bytes
        → spec.block_in bytes ≡ None → spec.block_in (bytes ++ more) ≡ None }
    ensures blank { (bytes : List ℕ) → spec.run_len bytes ≡ length bytes → spec.block_in bytes ≡ None }
{}

/// A head's block ends within the bytes, and within those that a head may have.
pub fn blocks_are_bounded()
    ensures { (bytes : List ℕ) (len : ℕ) → spec.block_in bytes ≡ Some len
        → (len ≤ length bytes) × (len ≤ MOST_HEAD_BYTES) }
{}

/// A head ends after its first empty line and nowhere before: its block has these bytes exactly where the first empty line
/// ends after them, which are no more than a head may have.
pub fn heads_end_after_an_empty_line()
    ensures ends { (bytes : List ℕ) (len : ℕ) → spec.block_in bytes ≡ Some len → EndsFirstEmptyLine bytes len }
    ensures found { (bytes : List ℕ) (len : ℕ) → EndsFirstEmptyLine bytes len → len ≤ MOST_HEAD_BYTES
        → spec.block_in bytes ≡ Some len }
{}
