// What a program prints.
use std::io;
use std::io::{Stdout, Write};

// Standard output, and whether all that was printed reached it: behind the first failure nothing is printed.
#[derive(Drop)]
pub struct Output {
    stdout: Stdout,
    came: io::Result<()>,
}

impl Output {
    pub fn new(stdout: Stdout) -> Output {
        Output {
            stdout,
            came: Ok(()),
        }
    }

    pub fn print(&mut self, bytes: &[u8]) {
        if self.came.is_ok() {
            self.came = self.stdout.write_all(bytes);
        }
    }

    // Whether all of it was printed.
    pub fn end(self) -> io::Result<()> {
        self.came
    }
}
