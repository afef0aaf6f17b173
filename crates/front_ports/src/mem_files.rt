ghost use Rattle.std.specs.Prelude.{◌≡◌, ◌||◌, None, is_none, option_map, if◌then◌else◌};
ghost use Rattle.front_ports.specs.FileMap.{HasDistinctNames, file_of};

use crate::files::{FileFail, Files};
use front_base::{Bytes, MOST_FILE_BYTES, Text};
use std::alloc::Global;

/// Files in memory, which tell what they hold and which read failed last.
#[derive(Debug, Drop)]
pub struct MemFiles {
    files: Vec<(Text, Bytes)>,
    fails: Vec<u64>,
    calls: u64,
    faults: u64,
    failed: Option<Text>,
}

impl MemFiles {
    ghost use Rattle.front_ports.specs.Memory.{files_held, files_faults, files_failed};
    ghost use Rattle.front_ports.specs.MemoryFiles.{files_fails, files_calls};

    /// Files of these names and bytes. The reads of these numbers fail, counted from 1.
    pub fn new(files: Vec<(Text, Bytes)>, fails: Vec<u64>) -> MemFiles
        requires { HasDistinctNames files.items }
        ensures held { files_held result ≡ files.items }
        ensures fresh { (files_faults result ≡ 0) × (files_failed result ≡ None) }
        ensures fails { (files_fails result ≡ fails.items) × (files_calls result ≡ 0) }
    {
        MemFiles {
            files,
            fails,
            calls: 0,
            faults: 0,
            failed: None,
        }
    }
}

// The bytes of the first file of that name.
fn find<'f>(files: &'f [(Text, Bytes)], name: &str) -> Option<&'f [u8]>
    ensures { option_map (λ bytes. bytes.now) result ≡ file_of name.now files.now }
{
    for (own, bytes) in files {
        if own.as_str() == name {
            return Some(bytes.as_slice());
        }
    }
    None
}

// The same, and none where the read fails.
fn find_unless<'f>(fails: bool, files: &'f [(Text, Bytes)], name: &str) -> Option<&'f [u8]>
    ensures bytes { option_map (λ bytes. bytes.now) result ≡ (if fails then None else file_of name.now files.now) }
    ensures none { is_none result ≡ (fails || is_none (file_of name.now files.now)) }
{
    if fails { None } else { find(files, name) }
}

impl Files for MemFiles {
    ghost use Rattle.std.specs.Prelude.{◌≤◌, ◌≢◌, Some, IfOk, OnOk, IsTrue, IsFalse, length};
    ghost use Rattle.front_ports.specs.Cause.{Rose};
    ghost use Rattle.front_ports.specs.FileMap.{KeepsFiles, HasFile, HasLongFile, Notes};
    ghost use Rattle.front_ports.specs.Memory.{files_held, files_faults, files_failed};
    ghost use Rattle.front_ports.specs.MemoryFiles.{files_fails, files_calls, files_will_fail};
    ghost use Rattle.front_ports.specs.Scripts.{next_count};

    ghost files = { λ m. Some (files_held m) };

    ghost faults = { files_faults };

    ghost failed = { λ m. Some (files_failed m) };

    fn read(&mut self, alloc: Global, name: &str) -> Result<Bytes, FileFail>
        ensures kept { KeepsFiles (Some (files_held self.old)) (Some (files_held self.new)) }
        ensures found { IfOk result (HasFile (Some (files_held self.old)) name.now) }
        ensures short { IfOk result (λ bytes. length bytes ≤ MOST_FILE_BYTES) }
        ensures long { result ≡ Err FileFail.TooLong → HasLongFile (Some (files_held self.old)) name.now }
        ensures later { files_faults self.old ≤ files_faults self.new }
        ensures fault { result ≡ Err FileFail.Fault → Rose (files_faults self.old) (files_faults self.new) }
        ensures sound { result ≢ Err FileFail.Fault → files_faults self.new ≡ files_faults self.old }
        ensures name { result ≡ Err FileFail.Fault
            → Notes (Some (files_failed self.old)) (Some (files_failed self.new)) (Some name.now) }
        ensures no_name { result ≢ Err FileFail.Fault → files_failed self.new ≡ files_failed self.old }

        // Which reads fail, where memory suffices, and which of the others are refused.
        ensures fails { result ≡ Err FileFail.Fault → IsTrue (files_will_fail self.old name.now) }
        ensures serves { OnOk result (IsFalse (files_will_fail self.old name.now)) }
        ensures refuses { result ≡ Err FileFail.TooLong → IsFalse (files_will_fail self.old name.now) }
        ensures too_long { IsFalse (files_will_fail self.old name.now)
            → HasLongFile (Some (files_held self.old)) name.now → result ≡ Err FileFail.TooLong }
        ensures setting { files_fails self.new ≡ files_fails self.old }
        ensures counted { files_calls self.new ≡ next_count (files_calls self.old) }
    {
        self.calls = self.calls.saturating_add(1);
        let is_listed = self.fails.contains(&self.calls);
        match find_unless(is_listed, self.files.as_slice(), name) {
            Some(bytes) => {
                if bytes.len() as u64 > MOST_FILE_BYTES {
                    return Err(FileFail::TooLong);
                }
                Ok(Bytes::new(bytes.to_vec(alloc)?))
            }
            None => {
                self.failed = Some(Text::copy_of(alloc, name)?);
                self.faults = self.faults.saturating_add(1);
                Err(FileFail::Fault)
            }
        }
    }
}
