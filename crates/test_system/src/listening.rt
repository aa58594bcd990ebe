//! Where a program listens.
//! No case can say it: a case has no environment.
use crate::checked::check;
use crate::site::site_at;
use call_log::{Written, written};
use capture::Memory;
use std::alloc::Global;
use std::env::FillError;
use std::process::Abort;
use std::rt::Env;
use tcp_links::{Address, LISTEN, where_to_listen};

/// An environment in which the variable has this text, or isn't there.
#[derive(Clone, Copy)]
struct Says(Option<&'static str>);

impl Env for Says {
    fn arg(&self, _i: usize, _buf: &mut [u8]) -> Result<usize, FillError> {
        Err(FillError::NotPresent)
    }

    fn var(&self, name: &str, buf: &mut [u8]) -> Result<usize, FillError> {
        if name != LISTEN {
            return Err(FillError::NotPresent);
        }
        let Some(text) = self.0 else {
            return Err(FillError::NotPresent);
        };
        let Some(front) = buf.get_mut(..text.len()) else {
            return Err(FillError::TooLong);
        };
        front.copy_from_slice(text.as_bytes());
        Ok(text.len())
    }

    fn var_at(&self, _i: usize, _buf: &mut [u8]) -> Result<usize, FillError> {
        Err(FillError::NotPresent)
    }
}

/// What the variable says, and where a program listens then whose site is at port 8080 of `[::1]`.
static ROWS: [(Option<&str>, &str); 14] = [
    (None, "[::1]:8080"),
    (Some("0.0.0.0:80"), "0.0.0.0:80"),
    (Some("[::]:8081"), "[::]:8081"),
    (Some("a.test:65535"), "a.test:65535"),
    (Some("a.test:65536"), "nowhere"),
    (Some("a.test:0"), "nowhere"),
    (Some("a.test:080"), "nowhere"),
    (Some("a.test:+80"), "nowhere"),
    (Some("a.test:8x"), "nowhere"),
    (Some("a.test:"), "nowhere"),
    (Some(":80"), "nowhere"),
    (Some("a.test"), "nowhere"),
    (Some("8080"), "nowhere"),
    (Some(""), "nowhere"),
];

/// Where that program listens, printed.
fn listens(alloc: Global, says: Option<&'static str>) -> Written {
    let Ok(site) = site_at(alloc, "[::1]", 8080) else {
        return Written::new();
    };
    printed(where_to_listen(&(Says(says), alloc), &site))
}

/// An address, printed.
fn printed(answer: Result<Option<Address>, Memory>) -> Written {
    match answer {
        Ok(Some(address)) => written(address),
        Ok(None) => written("nowhere"),
        Err(_) => Written::new(),
    }
}

/// Asserts where a program listens.
fn check_rows<R: Abort>(rt: &R, alloc: Global, rows: &[(Option<&'static str>, &str)]) {
    for (says, want) in rows {
        check(rt, listens(alloc, *says), want);
    }
}

#[test]
fn listens_where_the_environment_says(rt: HostRuntime) {
    check_rows(&rt, rt.alloc(), &ROWS);
}
