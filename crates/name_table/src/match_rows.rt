//! A table with one row for each variant of an enum.

/// Gives the row of an enum's value in a table with one row for each variant, whatever its fields.
///
/// `match_rows!(fault, Fault; Closed => "closed", Full | Late => "busy")` is a `match`, so a variant
/// with no row doesn't compile. It takes a value or a reference.
#[macro_export]
macro_rules! match_rows {
    ($value:expr, $name:ident; $($($variant:ident)|+ => $row:expr),+ $(,)?) => {
        match $value {
            $($($name::$variant { .. })|+ => $row,)+
        }
    };
}

#[cfg(test)]
mod tests {
    enum Fault {
        Closed,
        Full { count: u32, limit: u32 },
        Late(u64),
    }

    /// A row for each variant, one of which two share.
    fn status(fault: &Fault) -> (u16, &'static str) {
        match_rows!(fault, Fault;
            Closed => (502, "Bad Gateway"),
            Full | Late => (507, "Insufficient Storage"),
        )
    }

    /// No case can say it: a case has no enum of its own.
    #[test]
    fn gives_the_row_of_a_variant(rt: HostRuntime) {
        assert!(rt; status(&Fault::Closed) == (502, "Bad Gateway"));
        assert!(rt; status(&Fault::Full { count: 3, limit: 3 }).0 == 507);
        assert!(rt; status(&Fault::Late(1)).0 == 507);
    }
}
