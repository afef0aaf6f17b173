ghost use Rattle.std.specs.Prelude.{◌≡◌, ◌≤◌, ◌<◌, ◌++◌, [], IfOk, Some, length, drop, slice_get, vec_len};
ghost use Rattle.std.specs.Io.{ReadsAtMost};
ghost use Rattle.std.specs.Io.KnownBytes.{ReadConsumes};
ghost use Rattle.front_ports.specs.Cause.{HasCause};
ghost use Rattle.front_ports.specs.Scripts.{cut_to};

use crate::mem_bytes::MemBytes;
use crate::script::Script;
use crate::stream::PortFault;
use front_base::NoMemory;
use std::alloc::Global;

// The two sides of a connection or a link in memory, which do what a script says.
#[derive(Debug, Drop)]
pub struct MemStream {
    input: Vec<u8>,
    at: usize,
    sizes: Vec<u32>,
    reads: usize,
    fails: Vec<u64>,
    calls: u64,
    faults: u64,
    pub output: MemBytes,
    ghost inside: { at ≤ vec_len input },
}

// How many of so many bytes the next read gives, after so many reads.
fn next_size(sizes: &[u32], reads: usize, most: usize) -> usize
    ensures { result ≡ cut_to (slice_get sizes.now reads) most }
{
    match sizes.get(reads) {
        Some(size) => (*size as usize).max(1).min(most),
        None => most,
    }
}

// Puts bytes at the front of a buffer.
fn fill_front(buf: &mut [u8], bytes: &[u8])
    requires { length bytes.now ≤ length buf.old }
    ensures { buf.new ≡ bytes.now ++ drop (length bytes.now) buf.old }
{
    buf[..bytes.len()].copy_from_slice(bytes);
}

impl MemStream {
    ghost use Rattle.front_ports.specs.Memory.{stream_input, stream_left, stream_written};
    ghost use Rattle.front_ports.specs.Memory.{stream_read_faults, stream_write_faults};
    ghost use Rattle.front_ports.specs.MemoryStream.{BeginsAsTold, ReadsAsTold};

    pub fn new(alloc: Global, script: Script) -> Result<MemStream, NoMemory>
        ensures input { IfOk result (λ stream. stream_input stream ≡ script.input) }
        ensures left { IfOk result (λ stream. stream_left stream ≡ script.input) }
        ensures output { IfOk result (λ stream. stream_written stream ≡ []) }
        ensures no_read_fault { IfOk result (λ stream. stream_read_faults stream ≡ 0) }
        ensures no_write_fault { IfOk result (λ stream. stream_write_faults stream ≡ 0) }
        ensures told { IfOk result (λ stream. BeginsAsTold stream script) }
    {
        let output = MemBytes::new(alloc, script.room, script.write_fails)?;
        Ok(MemStream {
            input: script.input.into_vec(),
            at: 0,
            sizes: script.sizes,
            reads: 0,
            fails: script.read_fails,
            calls: 0,
            faults: 0,
            output,
        })
    }

    // What is left to read.
    pub fn left(&self) -> &[u8]
        ensures { result.now ≡ stream_left self.now }
    {
        &self.input.as_slice()[self.at..]
    }

    // How often a read failed.
    pub fn read_faults(&self) -> u64
        ensures { result ≡ stream_read_faults self.now }
    {
        self.faults
    }

    pub fn read(&mut self, buf: &mut [u8]) -> Result<usize, PortFault>
        requires { 0 < length buf.old }
        ensures bound { ReadsAtMost result buf.new }
        ensures bytes { ReadConsumes (Some (stream_left self.old)) (Some (stream_left self.new)) result buf.new }
        ensures cause { HasCause (stream_read_faults self.old) (stream_read_faults self.new) result }
        ensures told { ReadsAsTold self.old self.new result (length buf.old) }
    {
        self.calls = self.calls.saturating_add(1);
        if self.fails.contains(&self.calls) {
            self.faults = self.faults.saturating_add(1);
            return Err(PortFault);
        }
        let most = buf.len().min(self.input.len() - self.at);
        let n = next_size(self.sizes.as_slice(), self.reads, most);
        self.reads = self.reads.saturating_add(1);
        fill_front(buf, &self.input.as_slice()[self.at..self.at + n]);
        self.at += n;
        Ok(n)
    }
}
