ghost use Rattle.std.specs.Prelude.{◌≡◌, [], IfOk, Some, refl};
ghost use Rattle.front_ports.specs.Memory.{conn_from, conn_wishes, duplex_left, duplex_written};
ghost use Rattle.front_ports.specs.Memory.{duplex_read_faults, duplex_write_faults};
ghost use Rattle.front_ports.specs.MemoryStream.{duplex_stream, BeginsAsTold};
ghost use Rattle.front_ports.specs.Wishes.{GivesWish};

use crate::mem_duplex::{MemDuplex, MemVisitor};
use crate::mem_stream::MemStream;
use crate::script::Script;
use crate::stream::Conn;
use front_base::NoMemory;
use std::alloc::Global;
use std::collections::VecDeque;

/// A connection in memory. Its mark is its visitor.
pub type MemConn = MemDuplex<MemVisitor>;

impl MemConn {
    /// A connection from that peer, which never wishes to end.
    pub fn new(alloc: Global, from: [u8; 4], script: Script) -> Result<MemConn, NoMemory>
        ensures input { IfOk result (λ conn. duplex_left conn ≡ script.input) }
        ensures output { IfOk result (λ conn. duplex_written conn ≡ []) }
        ensures peer { IfOk result (λ conn. conn_from conn ≡ from) }
        ensures no_read_fault { IfOk result (λ conn. duplex_read_faults conn ≡ 0) }
        ensures no_write_fault { IfOk result (λ conn. duplex_write_faults conn ≡ 0) }
        ensures told { IfOk result (λ conn. BeginsAsTold (duplex_stream conn) script) }
        ensures content { IfOk result (λ conn. conn_wishes conn ≡ []) }
    {
        MemConn::wishing(alloc, from, script, Vec::new(alloc))
    }

    /// A connection from that peer. Asked whether it wishes to end it gives these answers, one after another, and then says no.
    pub fn wishing(
        alloc: Global,
        from: [u8; 4],
        script: Script,
        wishes: Vec<bool>,
    ) -> Result<MemConn, NoMemory>
        ensures input { IfOk result (λ conn. duplex_left conn ≡ script.input) }
        ensures output { IfOk result (λ conn. duplex_written conn ≡ []) }
        ensures peer { IfOk result (λ conn. conn_from conn ≡ from) }
        ensures no_read_fault { IfOk result (λ conn. duplex_read_faults conn ≡ 0) }
        ensures no_write_fault { IfOk result (λ conn. duplex_write_faults conn ≡ 0) }
        ensures told { IfOk result (λ conn. BeginsAsTold (duplex_stream conn) script) }
        ensures wishes { IfOk result (λ conn. conn_wishes conn ≡ wishes.items) }
    {
        let stream = MemStream::new(alloc, script)?;
        Ok(MemDuplex {
            mark: MemVisitor {
                from,
                wishes: VecDeque::from(wishes),
            },
            stream,
        })
    }
}

impl Conn for MemConn {
    ghost from = { conn_from };

    ghost wishes = { λ c. Some (conn_wishes c) };

    ghost outward_is = { λ c. refl };

    ghost inward_is = { λ c. refl };

    fn peer(&self) -> [u8; 4] {
        self.mark.from
    }

    fn wishes_to_end(&mut self) -> bool
        ensures wish { GivesWish (Some (conn_wishes self.old)) (Some (conn_wishes self.new)) result }
        ensures from { conn_from self.new ≡ conn_from self.old }
        ensures left { Some (duplex_left self.new) ≡ Some (duplex_left self.old) }
        ensures read_faults { duplex_read_faults self.new ≡ duplex_read_faults self.old }
        ensures written { Some (duplex_written self.new) ≡ Some (duplex_written self.old) }
        ensures write_faults { duplex_write_faults self.new ≡ duplex_write_faults self.old }

        // It says what it was given, and its script stays as it is.
        ensures script { duplex_stream self.new ≡ duplex_stream self.old }
    {
        match self.mark.wishes.pop_front() {
            Some(wish) => wish,
            None => false,
        }
    }
}
