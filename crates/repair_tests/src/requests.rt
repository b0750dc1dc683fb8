//! Requests of the console: `read_request`, a call of the interface that the program does not make.
ghost use Rattle.std.specs.Prelude.{IsTrue};
ghost use Rattle.verb_core.specs.Store.{is_house};

use crate::answers::house;
use console_http::{Asked, HttpRefused, Route, read_request};
use std::alloc::Global;
use std::test::Fail;
use verb_core::House;

fn starts_at(route: &Route, from: u32) -> bool {
    match route {
        Route::Timeline { start } => *start == from,
        _ => false,
    }
}

/// Whether the timeline is asked for, from an item on; or nothing whole yet, where none is given.
fn is_asked(asked: &Asked, from: Option<u32>) -> bool {
    match asked {
        Asked::NotYet => from == None,
        Asked::Whole { route } => from.is_some_and(|from| starts_at(route, from)),
    }
}

fn asks(alloc: Global, house: &House, bytes: &[u8], from: Option<u32>) -> bool
    requires { IsTrue (is_house house.now) }
{
    match read_request(alloc, house, bytes) {
        Ok(asked) => {
            let is = is_asked(&asked, from);
            drop(asked);
            is
        }
        Err(_) => false,
    }
}

fn refused(alloc: Global, house: &House, bytes: &[u8]) -> Option<HttpRefused>
    requires { IsTrue (is_house house.now) }
{
    read_request(alloc, house, bytes).err()
}

fn are_read(alloc: Global, house: &House) -> bool {
    house.is_sound()
        && asks(
            alloc,
            house,
            b"GET /timeline/3 HTTP/1.1\r\nHost: x\r\n\r\n",
            Some(3),
        )
        && asks(alloc, house, b"GET /timeline/3 HTTP/1.1\r\n", None)
        && refused(alloc, house, b"GET /none HTTP/1.1\r\nHost: x\r\n\r\n")
            == Some(HttpRefused::Route)
}

#[test]
fn requests_are_read_once_they_are_whole(rt: HostRuntime) -> Result<(), Fail> {
    let house = house(rt.alloc(), 1)?;
    let read = are_read(rt.alloc(), &house);
    drop(house);
    assert!(rt; read);
    Ok(())
}
