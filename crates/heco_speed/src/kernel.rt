use std::io;

/// A piece of work that is timed. Its room is made before.
pub trait Kernel {
    fn run(&mut self);

    /// Prints the name, and what the work gave: each polynomial as one number.
    fn print(&self, rt: &HostRuntime, name: &str) -> io::Result<()>;
}
