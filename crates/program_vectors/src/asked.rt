//! A shelf and a dock that keep the paths that they were asked for.
use dpe_io::{Dock, Failed, MemConn, MemDock, MemShelf, MemSource, Shelf};

/// A shelf in memory, and the paths of its openings with a line feed behind each.
#[derive(Drop)]
pub struct AskedShelf {
    pub shelf: MemShelf,
    pub paths: Vec<u8>,
}

/// A dock in memory, and the paths of its openings with a line feed behind each.
#[derive(Drop)]
pub struct AskedDock {
    pub dock: MemDock,
    pub paths: Vec<u8>,
}

// Keeps a path.
fn keep(paths: &mut Vec<u8>, path: &str) {
    let _ = paths.extend_from_slice(path.as_bytes());
    let _ = paths.push(b'\n');
}

impl Shelf for AskedShelf {
    type File = MemSource;

    ghost files = { λ s. s.shelf.files };

    fn file(&mut self, path: &str) -> Result<MemSource, Failed> {
        keep(&mut self.paths, path);
        self.shelf.file(path)
    }

    fn take_file(&mut self, place: u32, file: MemSource) {
        self.shelf.take_file(place, file)
    }
}

impl Dock for AskedDock {
    type File = MemSource;

    type Link = MemConn;

    ghost scripts = { λ d. d.dock.scripts };

    ghost links = { λ d. d.dock.links };

    fn script(&mut self, path: &str) -> Result<MemSource, Failed> {
        keep(&mut self.paths, path);
        self.dock.script(path)
    }

    fn link(&mut self, path: &str) -> Result<MemConn, Failed> {
        keep(&mut self.paths, path);
        self.dock.link(path)
    }

    fn take_script(&mut self, script: MemSource) {
        self.dock.take_script(script)
    }

    fn take_link(&mut self, place: u32, link: MemConn) {
        self.dock.take_link(place, link)
    }
}
