// What wakes an idle node.
use mio::unix::SourceFd;
use mio::{Interest, Registry, Token};
use std::cell::Cell;
use std::io;
use std::os::fd::AsRawFd;

/// Whether a socket of a node has brought anything since its dock looked last. All sockets of one node share it.
#[derive(Drop)]
pub struct Activity {
    came: Cell<bool>,
}

impl Activity {
    /// Nothing has come.
    pub fn new() -> Self {
        Activity {
            came: Cell::new(false),
        }
    }

    // Notes that something came.
    pub(crate) fn note(&self) {
        self.came.set(true);
    }

    // Whether anything came since the last call.
    pub(crate) fn take(&self) -> bool {
        self.came.replace(false)
    }
}

/// By what the sockets of a node wake its dock, and tell it that they brought something.
#[derive(Drop)]
pub struct Watch<'a> {
    registry: Option<Registry>,
    activity: &'a Activity,
}

impl<'a> Watch<'a> {
    /// No dock is woken: for a node without one.
    pub fn without_dock(activity: &'a Activity) -> Self {
        Watch {
            registry: None,
            activity,
        }
    }

    // The dock that waits on this registry is woken.
    pub(crate) fn of(registry: Registry, activity: &'a Activity) -> Self {
        Watch {
            registry: Some(registry),
            activity,
        }
    }

    // The dock is woken when this socket, which doesn't block, has something to be read.
    pub(crate) fn add<S: AsRawFd>(&self, socket: &S) -> io::Result<()> {
        let Some(registry) = &self.registry else {
            return Ok(());
        };
        let descriptor = socket.as_raw_fd();
        registry.register(&mut SourceFd(&descriptor), Token(0), Interest::READABLE)
    }

    // Notes what a read brought; its end is nothing to wake for.
    pub(crate) fn note<E>(&self, answer: &Result<Option<usize>, E>) {
        match answer {
            Ok(Some(n)) if *n > 0 => self.activity.note(),
            _ => {}
        }
    }

    pub(crate) fn activity(&self) -> &'a Activity {
        self.activity
    }
}
