//! The ports on which connections come, of this machine alone, and what the system tells of them and of the connections.
//!
//! The ports are a list of rows, each with what is spoken there, the number that was asked for and what listens. They are SMTP,
//! IMAP, the console, and POP3 where a port of it is given. They are had, looked at and told in this order, and nothing else in
//! the link knows how many there are. Where no memory is found for the list, that `next` found none: what was had is given up,
//! and the next one begins anew.
//!
//! How many may wait at a port until they are taken is 4,096, or what the system lets (`net.core.somaxconn`). By std it would be
//! 128, so the listener is told the greater number by the C library's `listen`, which the kit declares. Beside it only the
//! waiting goes past std.
ghost use Rattle.std.specs.Prelude.{◌≡◌, ◌∷◌, [], ◌++◌, true, Ok, IfOk, IfSome, map, slice_get};
ghost use Rattle.std.specs.Option.{option_map};
ghost use Rattle.undo_outside.specs.declared.event.Role.TheVariants.{Pop};
ghost use Rattle.host_outside.specs.Ports.{AskedFor, Row, row_of, rows_of, row_at};

use crate::readiness::Readiness;
use crate::telling::meaning;
use std::alloc::Global;
use std::net::{Ipv4Addr, Net, OpenListener, TcpListener};
use std::os::fd::AsRawFd;
use std::{fmt, io};
use undo_base::NoMemory;
use undo_outside::Role;

/// So many connections may wait at a port until they are taken, or as many as the system lets: std asks for 128.
const MOST_WAITING: i32 = 4096;

/// The number under which the system tells of the ports: no seat has it.
const PORTS: usize = usize::MAX;

/// A port, what is spoken there, and what listens.
#[derive(Drop)]
pub(crate) struct Port<L> {
    role: Role,
    listener: L,
    /// The number that was asked for, 0 where the system was to choose one.
    asked: u16,
    number: u16,
}

/// A connection, and at which port it came: what is spoken there, and its number as that was asked for.
#[derive(Drop)]
pub(crate) struct Arrived<S> {
    pub(crate) stream: S,
    pub(crate) role: Role,
    pub(crate) port: u16,
}

/// The ports on which it listens, in the order in which they are looked at.
#[derive(Drop)]
pub(crate) struct Listeners<L> {
    ports: Vec<Port<L>>,
    /// The system tells of these ports, under `PORTS`, and of the connections that are added, under the numbers of their seats.
    pub(crate) readiness: Readiness,
}

impl<L: OpenListener> Port<L> {
    pub(crate) fn role(&self) -> Role
        ensures { result ≡ self.now.role }
    {
        self.role
    }

    /// The next connection that waits there. Where none does, this fails.
    pub(crate) fn accept(&self) -> io::Result<Arrived<L::Stream>>
        ensures { IfOk result (λ arrived. (arrived.role ≡ self.now.role) × (arrived.port ≡ self.now.asked)) }
    {
        let (stream, _) = self.listener.accept()?;
        Ok(Arrived {
            stream,
            role: self.role,
            port: self.asked,
        })
    }
}

impl<L: OpenListener + AsRawFd> Listeners<L> {
    /// Listens on these ports, of SMTP, IMAP and HTTP, and on one of POP3 where that is given. For port 0 the system chooses
    /// one. Where one can't be had, or the system can't tell what comes, a line on standard error says which, and why.
    pub(crate) fn open<R: Net<Listener = L> + Eprint>(
        net: &R,
        alloc: Global,
        ports: (u16, u16, u16),
        pop: Option<u16>,
    ) -> Result<Option<Listeners<L>>, NoMemory>
    where
        L: Drop,
        ensures { IfOk result (λ listeners. IfSome listeners (AskedFor ports pop)) }
    {
        let Some(readiness) = readiness_of(net, alloc)? else {
            return Ok(None);
        };
        let mut them = Listeners {
            ports: Vec::new(alloc),
            readiness,
        };
        match them.add_all(net, ports, pop) {
            Ok(true) => Ok(Some(them)),
            Ok(false) => {
                drop(them);
                Ok(None)
            }
            Err(NoMemory) => {
                drop(them);
                Err(NoMemory)
            }
        }
    }

    /// Listens on all of these. Answers whether it does.
    fn add_all<R: Net<Listener = L> + Eprint>(
        &mut self,
        net: &R,
        ports: (u16, u16, u16),
        pop: Option<u16>,
    ) -> Result<bool, NoMemory>
    where
        L: Drop,
        requires { self.old.ports.items ≡ [] }
        ensures { result ≡ Ok true → AskedFor ports pop self.new }
    {
        let (smtp, imap, http) = ports;
        Ok(
            self.add(net, Role::Smtp, smtp)?
                && self.add(net, Role::Imap, imap)?
                && self.add(net, Role::Http, http)?
                && self.add_some(net, pop)?,
        )
    }

    /// Listens on one more port. Answers whether it does.
    fn add<R: Net<Listener = L> + Eprint>(
        &mut self,
        net: &R,
        role: Role,
        asked: u16,
    ) -> Result<bool, NoMemory>
    where
        L: Drop,
        ensures { result ≡ Ok true → map row_of self.new.ports.items ≡ map row_of self.old.ports.items ++ (role, asked) ∷ [] }
    {
        match listen(net, &self.readiness, role, asked) {
            Some(port) => {
                self.ports.push(port)?;
                Ok(true)
            }
            None => Ok(false),
        }
    }

    /// Listens on a port of POP3 too, where one is asked for. Answers whether nothing is left to be had.
    fn add_some<R: Net<Listener = L> + Eprint>(
        &mut self,
        net: &R,
        asked: Option<u16>,
    ) -> Result<bool, NoMemory>
    where
        L: Drop,
        ensures { result ≡ Ok true → map row_of self.new.ports.items ≡ map row_of self.old.ports.items ++ rows_of Pop asked }
    {
        match asked {
            Some(asked) => self.add(net, Role::Pop, asked),
            None => Ok(true),
        }
    }

    /// The port whose turn it is, if it is that of one.
    pub(crate) fn at(&self, place: usize) -> Option<&Port<L>>
        ensures { option_map (λ port. row_of port.now) result ≡ row_at place self.now }
    {
        self.ports.get(place)
    }
}

impl<L> fmt::Display for Listeners<L> {
    fn fmt<W: fmt::Write>(&self, f: &mut fmt::Formatter<W>) -> fmt::Result {
        let last = self.ports.len().saturating_sub(1);
        for (place, port) in self.ports.iter().enumerate() {
            let front = match place {
                0 => "",
                _ if place == last => " and ",
                _ => ", ",
            };
            write!(f, "{front}{} on port {}", port.role.name(), port.number)?;
        }
        Ok(())
    }
}

/// What the system tells of sockets. Where it can't a line on standard error says why.
fn readiness_of<R: Net + Eprint>(net: &R, alloc: Global) -> Result<Option<Readiness>, NoMemory> {
    match Readiness::open(net, alloc)? {
        Ok(readiness) => Ok(Some(readiness)),
        Err(error) => {
            let _told = eprintln!(net; "undomail: what comes cannot be waited for: {error}");
            Ok(None)
        }
    }
}

fn listen<R: Net + Eprint>(
    net: &R,
    readiness: &Readiness,
    role: Role,
    asked: u16,
) -> Option<Port<R::Listener>>
    ensures { IfSome result (λ port. row_of port ≡ (role, asked)) }
{
    match try_listen(net, readiness, role, asked) {
        Ok(port) => Some(port),
        Err(error) => {
            let whose = role.name();
            let meaning = meaning(&error);
            let _told = eprintln!(net;
                "undomail: port {asked} of {whose} cannot be had: {meaning}{error}"
            );
            None
        }
    }
}

fn try_listen<R: Net>(
    net: &R,
    readiness: &Readiness,
    role: Role,
    asked: u16,
) -> io::Result<Port<R::Listener>>
    ensures { IfOk result (λ port. row_of port ≡ (role, asked)) }
{
    let listener = TcpListener::bind(net, (Ipv4Addr::LOCALHOST, asked))?;
    match begin(&listener, readiness) {
        Ok(number) => Ok(Port {
            role,
            listener,
            asked,
            number,
        }),
        Err(error) => {
            drop(listener);
            Err(error)
        }
    }
}

/// From now on the system tells of it, and no call on it waits. Answers its number.
fn begin<L: OpenListener + AsRawFd>(listener: &L, readiness: &Readiness) -> io::Result<u16> {
    listener.set_nonblocking(true)?;
    let _lengthened = libc::net::listen(listener.as_raw_fd(), MOST_WAITING);
    readiness.add(listener, PORTS)?;
    Ok(listener.local_addr()?.port())
}
