//! How connections are counted.
//! No case can say it: the links of a case have no places.
use crate::checked::check;
use call_log::{Written, joined, written};
use std::io;
use tcp_links::{Place, Places};

/// What was told before, and behind it how many clients there are, and whether one waits.
fn told(before: Written, places: &Places, place: &Place) -> Written {
    let (clients, waits) = (places.clients(), place.is_crowded());
    joined(before, written(format_args!("{clients} {waits};")).as_str())
}

/// What is told to an origin, or to the first of them, at each step of two clients.
fn steps(places: &Places) -> io::Result<Written> {
    let origin = places.of_origin()?;
    let none = told(Written::new(), places, &origin);
    let mut first = places.of_client()?;
    let second = places.of_client()?;
    let both = told(none, places, &origin);
    first.serve();
    first.serve();
    let one_waits = told(both, places, &first);
    drop(second);
    let one_left = told(one_waits, places, &first);
    drop(first);
    Ok(told(one_left, places, &origin))
}

#[test]
fn counts_clients_and_who_waits(rt: HostRuntime) {
    let Ok(places) = Places::new(rt.alloc()) else {
        panic!(rt; "no memory");
    };
    let told = steps(&places).unwrap_or(Written::new());
    check(&rt, told, "0 false;2 true;2 true;1 false;0 false;");
}
