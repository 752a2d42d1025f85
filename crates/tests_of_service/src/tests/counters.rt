//! Scripts of counters: what increments come to, written at once and left for the end of a session.

/// Two clients count themselves in, and leave to be counted out. One of them is lost.
pub(crate) const COUNTED: &str = r#"clients alice bob
call alice online
up 1 1000
down 1
> note alice connected true
call bob online
up 2 1000
down 2
> note bob connected true
call alice od-set /count {".sv":{"increment":-1}}
call alice set /count {".sv":{"increment":1}}
up 3 1000
up 4 1000
down 3
> note alice armed 1
down 4
> note alice done 2 4
call bob od-set /count {".sv":{"increment":-1}}
call bob set /count {".sv":{"increment":1}}
up 5 1000
up 6 1000
down 5
> note bob armed 1
down 6
> note bob done 2 6
drop alice 2000
> number 7
> tree {"count":1}
> status 0"#;

/// A write whose answer was lost counts once.
pub(crate) const COUNTED_ONCE: &str = r#"clients alice
call alice online
up 1 1000
down 1
> note alice connected true
call alice set /a {".sv":{"increment":1}}
up 2 1000
drop alice 1000
call alice lost
> note alice connected false
call alice online
up 3 1000
down 4
> note alice connected true
up 4 1000
down 5
> note alice done 1 2
> number 5
> tree {"a":1}
> status 0"#;

/// What is left for the end of a session reads what stands there then, after the writes that were
/// left before it.
pub(crate) const AT_THE_END: &[&str] = &[
    // A put above: the increment reads what that put.
    r#"clients alice
call alice online
up 1 1000
down 1
> note alice connected true
call alice set /a/b 5
call alice od-set /a {"b":1}
call alice od-set /a/b {".sv":{"increment":1}}
up 2 1000
up 3 1000
up 4 1000
drop alice 2000
> number 5
> tree {"a":{"b":2}}
> status 0"#,
    // A cancel between: the place keeps its value, and the increment reads that.
    r#"clients alice
call alice online
up 1 1000
down 1
> note alice connected true
call alice set /a/b/c 5
call alice od-set /a {"b":{"c":1},"d":2}
call alice od-cancel /a/b
call alice od-set /a/b/c {".sv":{"increment":1}}
up 2 1000
up 3 1000
up 4 1000
up 5 1000
drop alice 2000
> number 6
> tree {"a":{"b":{"c":6},"d":2}}
> status 0"#,
    // A cancelled increment: the place keeps what it held before the end.
    r#"clients alice
call alice online
up 1 1000
down 1
> note alice connected true
call alice set /a/b 5
call alice od-set /a {"b":{".sv":{"increment":1}},"c":{".sv":{"increment":1}}}
call alice od-cancel /a/b
up 2 1000
up 3 1000
up 4 1000
drop alice 2000
> number 5
> tree {"a":{"b":5,"c":1}}
> status 0"#,
    // Two at one place are one row, the later.
    r#"clients alice
call alice online
up 1 1000
down 1
> note alice connected true
call alice set /n 5
call alice od-set /n {".sv":{"increment":1}}
call alice od-set /n {".sv":{"increment":1}}
up 2 1000
up 3 1000
up 4 1000
drop alice 2000
> number 5
> tree {"n":6}
> status 0"#,
    // Each reads what the one above it came to.
    r#"clients alice
call alice online
up 1 1000
down 1
> note alice connected true
call alice od-set /a {"b":{"c":{".sv":{"increment":1}}}}
call alice od-set /a/b {"c":{".sv":{"increment":10}}}
call alice od-set /a/b/c {".sv":{"increment":100}}
up 2 1000
up 3 1000
up 4 1000
drop alice 2000
> number 5
> tree {"a":{"b":{"c":111}}}
> status 0"#,
    // A number above the place is no number at it.
    r#"clients alice
call alice online
up 1 1000
down 1
> note alice connected true
call alice set /a 5
call alice od-set /a/b {".sv":{"increment":1}}
up 2 1000
up 3 1000
drop alice 2000
> number 4
> tree {"a":{"b":1}}
> status 0"#,
    // A put of null above takes the number away.
    r#"clients alice
call alice online
up 1 1000
down 1
> note alice connected true
call alice set /a/b 5
call alice od-set /a null
call alice od-set /a/b {".sv":{"increment":1}}
up 2 1000
up 3 1000
up 4 1000
drop alice 2000
> number 5
> tree {"a":{"b":1}}
> status 0"#,
    // At the bound it stays.
    r#"clients alice
call alice online
up 1 1000
down 1
> note alice connected true
call alice set /n 9223372036854775807
call alice od-set /n {".sv":{"increment":1}}
up 2 1000
up 3 1000
drop alice 2000
> number 4
> tree {"n":9223372036854775807}
> status 0"#,
    // A text is no number.
    r#"clients alice
call alice online
up 1 1000
down 1
> note alice connected true
call alice set /n "x"
call alice od-set /n {".sv":{"increment":7}}
up 2 1000
up 3 1000
drop alice 2000
> number 4
> tree {"n":7}
> status 0"#,
    // An update reads what stood before all of it.
    r#"clients alice
call alice online
up 1 1000
down 1
> note alice connected true
call alice set / {"a":1,"b":{"c":2}}
call alice od-update / {"a":{".sv":{"increment":1}},"b/c":{".sv":{"increment":-3}},"d":{".sv":{"increment":4}}}
up 2 1000
up 3 1000
drop alice 2000
> number 4
> tree {"a":2,"b":{"c":-1},"d":4}
> status 0"#,
];
