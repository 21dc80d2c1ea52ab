// A patient stream as a reader: what was read ahead is read first, then the stream itself.
ghost use Rattle.std.specs.Prelude.{◌≡◌};
ghost use Rattle.tcp_doors.specs.Streams.{remaining_of};

use crate::patient_stream::PatientStream;
use std::io;
use std::io::Read;
use std::sync::Wait;

impl<S: Read + Drop, R: Wait + Copy + Drop> Read for PatientStream<S, R> {
    ghost remaining = { remaining_of S.remaining };

    fn read(&mut self, buf: &mut [u8]) -> io::Result<usize> {
        if self.has_ahead() {
            Ok(self.give(buf))
        } else {
            self.read_on(buf)
        }
    }
}
