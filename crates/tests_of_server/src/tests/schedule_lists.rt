//! Schedules of a server, one a line, as `bench/schedule_lists.py` prints them.

/// The schedules.
pub(crate) const SCHEDULES: &str =
    r#"0 h al 1; 1 h cy 1; 3 h cy 2; 4 t cy 2 1 1 /c true {"b":2}; 6 t al 1 1 1 /b {"b":2} 1; 7 o al 1 2 2 /a/b {".sv":"timestamp"}; 8 h bo 1; 10 t bo 1 1 1 /b 1 {"b":2}; 13 l al 1 3 /b {".sv":"timestamp"}
2 h cy 1; 5 x cy 1; 8 h al 1; 9 h cy 2; 12 k; 15 l al 1 1 /a/b {".sv":"timestamp"}; 15 h bo 1
1 h cy 1; 1 h al 1; 1 k; 2 l al 1 1 / null; 4 + al 1 2 /; 4 h al 2; 4 - al 2 1 /a; 5 o al 2 2 1 /a 1; 5 o al 2 2 1 /a 1
0 h bo 1; 0 h cy 1; 0 k; 1 h al 1; 3 l al 1 1 /a {".sv":"timestamp"}; 6 t bo 1 1 1 /a/b true {"b":2}; 6 + al 1 2 /a/b
1 h al 1; 4 h cy 1; 4 + al 1 1 /
0 h cy 1; 2 h bo 1; 2 l bo 1 1 / {".sv":"timestamp"}; 2 h al 1; 3 l al 1 1 /b {"b":2}
3 h al 1; 4 h bo 1; 4 b al 1 1; 5 h cy 1; 7 h cy 1
2 h bo 1; 4 h cy 1; 4 - cy 1 1 /b
3 h cy 1; 4 o cy 1 1 1 /a/b true; 4 h bo 1
2 h bo 1; 3 b bo 1 1; 5 h al 1; 7 + al 1 1 /; 10 h cy 1; 12 h bo 2; 14 k
3 h bo 1; 5 h al 1; 7 h cy 1; 7 o cy 1 1 1 /c 1; 10 x al 1; 10 t bo 1 1 1 /a/b {"b":2} 1; 12 r cy; 15 h cy 2
2 h al 1; 5 l al 1 1 /a/b {".sv":"timestamp"}; 6 h cy 1; 9 o al 1 2 1 /a/b {"b":2}; 11 h bo 1; 14 t cy 1 1 1 / 1 1; 17 r bo
0 h bo 1; 3 h al 1; 4 h cy 1; 5 o al 1 1 1 /a true; 6 o cy 1 1 1 /b {"b":2}; 8 l al 1 2 /a null; 10 l al 1 2 /a null; 13 + cy 1 2 /c
2 h bo 1; 5 h bo 1; 5 t bo 1 1 1 /b true 1; 5 r bo; 7 h bo 2; 7 h cy 1
3 h al 1; 5 l al 1 1 /c true; 5 h bo 1; 7 l bo 1 1 / {".sv":"timestamp"}; 8 h cy 1; 9 o cy 1 1 1 /b {".sv":"timestamp"}; 10 r al
3 h bo 1; 5 o bo 1 1 1 /a/b {"b":2}; 6 r bo
2 h bo 1; 3 h cy 1; 4 h al 1; 7 t cy 1 1 1 /c true {"b":2}
2 h cy 1; 2 h bo 1; 4 l bo 1 1 / 1; 6 h al 1; 6 t bo 1 2 1 /b null true; 7 o cy 1 1 1 /a true; 9 o bo 1 3 2 /a/b 1; 12 o al 1 1 1 /a {".sv":"timestamp"}; 12 + bo 1 4 /c
1 h al 1; 4 h bo 1; 4 h cy 1
1 h al 1; 4 h bo 1; 4 h cy 1; 7 l cy 1 1 /b {"b":2}; 10 l cy 1 1 /b {"b":2}; 10 t cy 1 2 1 /c 1 null
2 h bo 1; 2 h cy 1; 3 h cy 1; 6 h al 1; 9 h al 1; 12 o bo 1 1 1 /c {".sv":"timestamp"}
0 h al 1; 0 h cy 1; 1 h bo 1
0 h al 1; 1 h cy 1; 4 k; 5 c al 1 1 /a; 6 h bo 1; 7 o bo 1 1 1 / {".sv":"timestamp"}; 7 l bo 1 2 /b true
3 h cy 1; 3 h cy 1; 4 h bo 1; 5 t cy 1 1 1 /c null 1
1 h cy 1; 2 h al 1; 3 r al; 6 h al 2; 8 h bo 1; 8 + bo 1 1 /; 11 + al 2 1 /a/b; 11 t bo 1 2 1 /c 1 {"b":2}; 12 b bo 1 3
3 h bo 1; 4 o bo 1 1 1 /c true; 6 c bo 1 2 /b; 7 h cy 1; 8 k
2 h al 1; 2 h bo 1; 4 h cy 1; 7 k; 7 o cy 1 1 1 /c {"b":2}; 7 x bo 1; 7 o al 1 1 1 /a 1
2 h cy 1; 5 h al 1; 5 o al 1 1 1 /b {"b":2}; 5 h bo 1; 8 t al 1 2 2 / null null; 11 o bo 1 1 1 /a/b {".sv":"timestamp"}; 13 c bo 1 2 /b
1 h bo 1; 4 h bo 1; 5 h al 1; 6 + al 1 1 /c; 6 l al 1 2 /a null; 8 l bo 1 1 /c true; 10 c al 1 3 /; 12 h cy 1
2 h cy 1; 3 h cy 1; 5 h cy 2; 5 h al 1; 8 - al 1 1 /a; 8 - al 1 1 /a
2 h cy 1; 2 h al 1; 3 h bo 1; 3 o cy 1 1 1 /b null; 5 h al 2; 8 o al 2 1 1 /a/b null; 9 x bo 1; 12 r cy; 14 h bo 2
3 h cy 1; 6 h al 1; 8 h bo 1; 8 k
2 h al 1; 5 h cy 1; 8 h bo 1; 11 c al 1 1 /c; 12 l bo 1 1 /c 1; 15 l cy 1 1 /c {"b":2}
3 h bo 1; 5 h cy 1; 6 o cy 1 1 1 /a {"b":2}
2 h cy 1; 4 h bo 1; 4 h al 1; 4 o bo 1 1 1 /b 1; 6 c cy 1 1 /b
1 h bo 1; 1 l bo 1 1 / null; 3 h cy 1; 3 b cy 1 1; 4 h cy 2; 6 c bo 1 2 /b; 9 h al 1
2 h al 1; 4 b al 1 1; 5 h bo 1; 7 h cy 1; 7 + bo 1 1 /a; 8 x cy 1; 11 h cy 2
1 h al 1; 4 + al 1 1 /a/b; 7 h al 2; 7 h cy 1
0 h al 1; 1 h bo 1; 1 l bo 1 1 /c true; 3 h cy 1; 4 o al 1 1 1 /a null; 6 o al 1 2 2 /a/b null
1 h al 1; 2 h al 1; 2 h bo 1; 3 + bo 1 1 /a; 5 + al 1 1 /a/b; 6 h cy 1; 7 r bo; 9 h bo 2; 10 h al 2
1 h bo 1; 2 h cy 1; 3 h al 1
1 h bo 1; 2 h al 1; 2 l bo 1 1 /b {".sv":"timestamp"}; 4 h cy 1; 4 t bo 1 2 1 /a true null; 4 + cy 1 1 /a; 5 + cy 1 2 /; 7 o al 1 1 1 /b {"b":2}; 7 o al 1 2 2 /a/b true
1 h bo 1; 1 h al 1; 2 + al 1 1 /b; 5 + al 1 1 /b; 8 + al 1 1 /b; 8 l al 1 2 /a {"b":2}; 10 o al 1 3 1 /a/b {".sv":"timestamp"}
2 h bo 1; 5 + bo 1 1 /b; 6 o bo 1 2 1 /c {"b":2}; 8 h cy 1
3 h cy 1; 6 h bo 1; 7 h al 1; 8 b cy 1 1; 11 k; 13 + al 1 1 /
2 h cy 1; 2 h al 1; 4 + al 1 1 /a; 5 l al 1 2 /a/b {".sv":"timestamp"}; 7 h al 2; 10 h cy 2; 13 h bo 1; 13 l al 2 1 /a true
3 h bo 1; 5 h bo 1; 7 h bo 1; 8 h cy 1; 9 t bo 1 1 1 / {"b":2} null
1 h al 1; 2 h cy 1; 5 b cy 1 1; 7 o al 1 1 1 /c {".sv":"timestamp"}; 7 h bo 1; 7 x al 1; 9 h cy 2
1 h bo 1; 2 h cy 1; 2 h al 1; 3 h al 1; 4 c al 1 1 /; 5 o cy 1 1 1 /a/b null; 6 - cy 1 2 /a; 6 o cy 1 3 2 / 1
2 h cy 1; 4 h al 1; 4 + cy 1 1 /c; 6 l cy 1 2 /c {"b":2}; 6 + al 1 1 /a; 7 c al 1 2 /b; 7 l al 1 3 /c 1; 10 o al 1 4 1 /a 1; 12 h bo 1
0 h al 1; 2 h al 1; 5 t al 1 1 1 / null null; 8 h cy 1; 11 + al 1 2 /; 12 - al 1 3 /; 14 b cy 1 1; 14 + al 1 4 /a/b
0 h al 1; 0 h cy 1; 3 b cy 1 1; 3 - al 1 1 /a/b
0 h al 1; 2 o al 1 1 1 /b true; 5 h bo 1; 6 t bo 1 1 1 /a {"b":2} {"b":2}; 6 h cy 1; 6 l bo 1 2 /a {".sv":"timestamp"}; 9 - al 1 2 /c; 12 o bo 1 3 3 /a 1
1 h cy 1; 1 h bo 1; 2 c bo 1 1 /; 3 h al 1
0 h cy 1; 1 h bo 1; 4 k; 4 h al 1
2 h al 1; 3 h cy 1; 6 h al 2; 9 + cy 1 1 /c
3 h al 1; 4 h bo 1; 5 l al 1 1 / true; 5 h cy 1
3 h bo 1; 4 h al 1; 6 b al 1 1; 7 h al 2; 7 h al 2; 10 + al 2 1 /c; 13 l al 2 2 /a null; 15 t bo 1 1 1 /a/b {"b":2} 1; 17 h cy 1
0 h bo 1; 3 h cy 1; 3 h al 1; 5 b al 1 1; 7 h bo 2; 9 o bo 2 1 1 /a true; 11 k; 13 l bo 2 2 /c {".sv":"timestamp"}
3 h bo 1; 3 h cy 1; 5 c cy 1 1 /b; 8 x bo 1; 11 x bo 1; 14 h bo 2
1 h cy 1; 1 o cy 1 1 1 / {"b":2}; 3 h al 1; 6 h bo 1; 9 o bo 1 1 1 /a null; 10 c bo 1 2 /a/b; 13 h al 2; 14 o al 2 1 1 /a {"b":2}
3 h bo 1; 4 h al 1; 7 h cy 1
1 h bo 1; 4 h al 1; 7 h al 1; 9 t bo 1 1 1 /b null null; 9 t al 1 1 1 /a 1 null; 9 h cy 1; 10 t al 1 2 2 /b true true
3 h bo 1; 6 t bo 1 1 1 /c true {"b":2}; 8 t bo 1 2 2 / 1 true; 9 o bo 1 3 3 /a true
1 h cy 1; 1 + cy 1 1 /b; 1 h al 1; 1 h bo 1; 2 k; 4 h cy 2; 7 t al 1 1 1 /a 1 null
1 h bo 1; 3 h bo 1; 5 h cy 1; 8 + cy 1 1 /b; 9 t cy 1 2 1 /a 1 true; 12 x bo 1
2 h cy 1; 2 h cy 1; 3 h al 1; 4 h bo 1; 6 + bo 1 1 /b; 9 t bo 1 2 1 / 1 {"b":2}
2 h al 1; 5 h cy 1; 8 h cy 2; 9 o cy 2 1 1 /c true; 11 + cy 2 2 /b; 14 o cy 2 3 1 /a 1; 14 o cy 2 3 1 /a 1
0 h bo 1; 3 o bo 1 1 1 /b {"b":2}; 4 h cy 1; 5 h al 1; 6 - al 1 1 /a/b; 6 l cy 1 1 /a/b null
2 h al 1; 3 k; 6 k; 9 h bo 1; 9 h cy 1; 11 h cy 1; 11 o al 1 1 1 /b null
3 h al 1; 4 h bo 1; 6 l bo 1 1 /a/b 1; 8 o bo 1 2 1 / {"b":2}
0 h bo 1; 0 h al 1; 2 o al 1 1 1 / 1; 3 o al 1 1 1 / 1; 5 h cy 1; 7 l bo 1 1 /b 1; 7 l al 1 2 /a/b true; 8 l cy 1 1 / true
1 h al 1; 4 h cy 1; 6 h bo 1; 7 + bo 1 1 /c; 8 t bo 1 2 1 /b 1 {"b":2}
0 h cy 1; 2 h bo 1; 2 t bo 1 1 1 /b 1 1; 2 k; 5 l cy 1 1 / 1; 6 l cy 1 1 / 1
3 h al 1; 4 h cy 1; 4 h bo 1; 5 t bo 1 1 1 /b null 1; 8 t bo 1 1 1 /b null 1; 10 b al 1 1
2 h cy 1; 5 + cy 1 1 /; 7 h bo 1; 7 h bo 1; 10 h bo 1; 11 l cy 1 2 /c {"b":2}; 13 + bo 1 1 /a/b
2 h bo 1; 5 + bo 1 1 /a/b; 8 + bo 1 2 /; 9 o bo 1 3 1 /c true; 12 h cy 1; 14 l cy 1 1 /c null; 17 c cy 1 2 /; 17 c bo 1 4 /a/b
3 h cy 1; 6 h bo 1; 6 + cy 1 1 /a; 9 h al 1
3 h cy 1; 4 h bo 1; 5 t bo 1 1 1 /b true null; 8 h bo 2; 8 t cy 1 1 1 / true null; 10 + bo 2 1 /b; 13 h cy 2
3 h cy 1; 4 h bo 1; 4 h al 1; 7 o bo 1 1 1 /c {"b":2}; 7 - cy 1 1 /; 10 o cy 1 2 1 / true; 13 c cy 1 3 /a/b
1 h al 1; 1 h cy 1; 4 b cy 1 1
2 h bo 1; 5 h al 1; 7 l al 1 1 /c 1; 9 h cy 1; 9 o al 1 2 1 /b true; 12 c al 1 3 /a/b; 12 + bo 1 1 /c; 13 x bo 1; 14 + al 1 4 /a/b
0 h bo 1; 2 h cy 1; 4 o bo 1 1 1 /b 1; 6 o bo 1 2 3 /a 1; 7 + cy 1 1 /c; 10 + cy 1 1 /c; 12 h cy 2; 12 h al 1; 13 x cy 2
2 h al 1; 3 h cy 1; 4 o al 1 1 1 /a/b {"b":2}; 7 o al 1 2 3 /a 1; 10 o al 1 2 1 / {".sv":"timestamp"}
3 h al 1; 3 h bo 1; 4 + bo 1 1 /a/b; 4 r bo; 5 b al 1 1; 7 h cy 1
3 h cy 1; 6 h al 1; 9 o al 1 1 1 / {".sv":"timestamp"}; 11 h bo 1; 11 t cy 1 1 1 /a/b 1 true; 14 t al 1 2 2 /a 1 {"b":2}; 16 + bo 1 1 /c
2 h al 1; 5 h bo 1; 8 + bo 1 1 /a/b; 10 h cy 1; 13 o cy 1 1 1 /a/b null; 15 b cy 1 2; 17 t al 1 1 1 / {"b":2} 1; 18 l al 1 2 /b {".sv":"timestamp"}
0 h cy 1; 3 h al 1; 6 h bo 1; 8 l cy 1 1 /a true; 11 - al 1 1 /c
0 h bo 1; 2 h bo 2; 4 + bo 2 1 /c; 5 h cy 1
1 h cy 1; 2 l cy 1 1 /c true; 3 h al 1; 5 h bo 1; 8 t bo 1 1 1 /a true {"b":2}; 10 t cy 1 2 1 /a {"b":2} {"b":2}; 11 c cy 1 3 /c; 13 c cy 1 4 /a/b; 13 l cy 1 5 / true
3 h al 1; 3 h cy 1; 6 + cy 1 1 /c; 6 h bo 1
1 h al 1; 3 h cy 1; 3 + al 1 1 /b; 3 t al 1 2 1 /c null true
1 h cy 1; 4 h al 1; 5 o cy 1 1 1 /a/b 1; 8 h bo 1; 10 t cy 1 2 1 /b {"b":2} {"b":2}; 11 t bo 1 1 1 / {"b":2} 1; 13 t cy 1 3 2 /c {"b":2} true
3 h cy 1; 6 h al 1; 6 o al 1 1 1 /b {"b":2}; 7 h bo 1
3 h bo 1; 4 h al 1; 6 l bo 1 1 /b 1; 7 l bo 1 1 /b 1
2 h al 1; 5 h bo 1; 8 h cy 1; 10 l al 1 1 /b 1
3 h bo 1; 4 h al 1; 4 l bo 1 1 /a/b 1
0 h al 1; 1 h cy 1; 4 t cy 1 1 1 / true true; 4 o al 1 1 1 / {"b":2}; 6 + cy 1 2 /; 7 o cy 1 3 2 / true; 10 o cy 1 4 2 /b {"b":2}
1 h bo 1; 4 o bo 1 1 1 /b true; 5 o bo 1 1 1 /b true; 5 h al 1; 7 o bo 1 2 1 /c {".sv":"timestamp"}; 9 o bo 1 3 1 /a null; 11 o al 1 1 1 /b {"b":2}; 11 c bo 1 4 /c; 12 - al 1 2 /b
2 h cy 1; 4 h bo 1; 5 h al 1; 5 t al 1 1 1 /a/b null true; 5 - bo 1 1 /a/b; 6 - al 1 2 /; 6 l al 1 3 /c true
3 h cy 1; 6 + cy 1 1 /a/b; 9 h al 1; 10 l cy 1 2 / 1; 10 l cy 1 3 / true; 13 l al 1 1 /a 1
0 h al 1; 2 l al 1 1 /c {".sv":"timestamp"}; 2 + al 1 2 /c; 2 h cy 1; 4 h bo 1; 4 c bo 1 1 /a; 6 r bo; 8 h al 2
3 h cy 1; 4 h cy 2; 5 h bo 1; 6 o cy 2 1 1 / {"b":2}
0 h cy 1; 2 h bo 1; 5 o bo 1 1 1 / {"b":2}; 5 l cy 1 1 /b {".sv":"timestamp"}; 8 c cy 1 2 /b; 9 h bo 2; 12 o cy 1 3 1 /c {".sv":"timestamp"}; 14 - bo 2 1 /a
2 h cy 1; 2 l cy 1 1 / {".sv":"timestamp"}; 4 h bo 1
2 h cy 1; 5 h bo 1; 5 l cy 1 1 /c null; 8 t bo 1 1 1 / null 1; 9 h al 1; 12 l bo 1 2 /b {".sv":"timestamp"}; 13 + cy 1 2 /b; 13 o al 1 1 1 / {".sv":"timestamp"}
3 h cy 1; 5 t cy 1 1 1 /a/b null 1; 5 h bo 1; 7 h bo 2
1 h al 1; 1 h al 1; 4 h bo 1; 7 h cy 1; 8 r al; 10 l cy 1 1 / 1; 10 l bo 1 1 /a null; 10 l cy 1 2 /b {"b":2}
1 h al 1; 2 h bo 1; 3 h cy 1; 6 h bo 2; 6 k; 8 t bo 2 1 1 /b true true
2 h al 1; 2 h cy 1; 4 b cy 1 1; 6 h cy 2; 6 o al 1 1 1 / {"b":2}; 7 t cy 2 1 1 /a/b null 1; 10 l cy 2 2 /c {"b":2}
1 h al 1; 3 h bo 1; 5 o bo 1 1 1 /a/b {".sv":"timestamp"}; 7 t bo 1 2 1 /a/b null 1
0 h al 1; 1 h bo 1; 3 t al 1 1 1 /a 1 true; 3 h cy 1; 6 l cy 1 1 /a true; 8 l bo 1 1 /c {"b":2}; 8 + bo 1 2 /b; 8 + al 1 2 /c; 10 l al 1 3 /a/b null
0 h bo 1; 3 h cy 1; 4 o bo 1 1 1 /a {".sv":"timestamp"}; 5 + cy 1 1 /; 6 o cy 1 2 1 /c {".sv":"timestamp"}; 9 h al 1; 10 + bo 1 2 /a/b; 12 o cy 1 3 1 /b {".sv":"timestamp"}; 14 t al 1 1 1 /a null {"b":2}
1 h bo 1; 1 h al 1; 4 l bo 1 1 /a/b true; 5 h bo 2
3 h al 1; 3 h cy 1; 4 - cy 1 1 /a/b
1 h al 1; 2 h al 1; 4 h bo 1; 6 - al 1 1 /; 6 h cy 1; 8 o bo 1 1 1 /c {"b":2}
3 h al 1; 6 h bo 1; 7 h cy 1; 8 o cy 1 1 1 /a/b 1; 11 l bo 1 1 /a {"b":2}
0 h cy 1; 3 + cy 1 1 /; 6 h bo 1; 7 l cy 1 2 / null; 9 c cy 1 3 /
0 h al 1; 3 h bo 1; 3 h bo 2
2 h bo 1; 3 h al 1; 6 + al 1 1 /c; 8 l bo 1 1 /a/b true; 11 r al; 14 h cy 1; 16 h cy 1; 17 o cy 1 1 1 /a/b null
1 h al 1; 4 h al 1; 5 h cy 1
2 h cy 1; 5 h bo 1; 8 + cy 1 1 /c; 9 t bo 1 1 1 /a/b {"b":2} null; 12 - bo 1 2 /c
2 h cy 1; 3 h al 1; 6 o al 1 1 1 /a/b 1; 9 o al 1 2 1 /b null; 12 l cy 1 1 /a/b {"b":2}; 14 o cy 1 2 1 /a true
0 h al 1; 1 h cy 1; 1 r cy
2 h bo 1; 2 h cy 1; 4 h al 1; 5 t bo 1 1 1 / true null; 7 + cy 1 1 /a; 10 - al 1 1 /b; 10 o cy 1 2 1 /a/b {"b":2}; 12 o cy 1 3 2 /b {"b":2}; 13 k
1 h cy 1; 1 h bo 1; 4 h al 1
2 h bo 1; 3 x bo 1; 4 h bo 2; 7 h al 1
2 h bo 1; 3 h bo 1; 5 h cy 1; 6 b cy 1 1; 9 h cy 2
1 h bo 1; 3 l bo 1 1 /c {"b":2}; 5 h cy 1; 7 h al 1; 7 h al 1; 7 h bo 2; 10 h bo 2; 10 t al 1 1 1 / null null
0 h al 1; 2 o al 1 1 1 /b 1; 4 h bo 1; 6 h cy 1; 6 + al 1 2 /c
1 h cy 1; 1 x cy 1; 4 h al 1; 7 h bo 1; 10 h cy 2
3 h al 1; 6 h bo 1; 7 t bo 1 1 1 /b 1 1; 7 r al; 10 h al 2; 10 o bo 1 2 1 /a/b true; 12 h cy 1; 15 b bo 1 3
0 h bo 1; 0 h bo 1; 1 h cy 1; 1 h al 1; 1 o cy 1 1 1 /c true; 3 o al 1 1 1 / null
3 h bo 1; 5 h cy 1; 5 h al 1; 6 l al 1 1 /b null; 8 + bo 1 1 /b; 9 b bo 1 2; 10 l cy 1 1 /a {".sv":"timestamp"}; 13 h bo 2; 16 r bo
2 h bo 1; 3 h al 1; 5 h al 2; 5 l bo 1 1 /b null; 7 + bo 1 2 /c; 8 h cy 1; 11 o bo 1 3 1 /c {".sv":"timestamp"}; 14 o al 2 1 1 /c {".sv":"timestamp"}
3 h bo 1; 3 h al 1; 5 r bo
0 h al 1; 1 c al 1 1 /c; 4 o al 1 2 1 /a/b {".sv":"timestamp"}; 7 - al 1 3 /a/b; 7 h bo 1; 9 h cy 1; 11 h cy 1
1 h bo 1; 4 h bo 1; 6 o bo 1 1 1 / {"b":2}; 7 h cy 1; 9 h al 1; 9 r al
3 h cy 1; 3 h bo 1; 6 o cy 1 1 1 / true; 8 r cy; 9 h al 1
2 h al 1; 4 b al 1 1; 5 h cy 1
2 h al 1; 5 h cy 1; 5 h bo 1; 7 + bo 1 1 /a; 10 r al; 13 l bo 1 2 /a/b 1; 16 l bo 1 2 /a/b 1; 16 h al 2
2 h al 1; 2 h bo 1; 4 + bo 1 1 /c; 7 + bo 1 2 /a; 9 r al; 10 r al; 13 h al 2; 14 h cy 1
0 h al 1; 2 h cy 1; 4 + cy 1 1 /a
0 h bo 1; 3 h al 1; 5 o bo 1 1 1 /a/b {"b":2}; 7 t al 1 1 1 / null 1; 8 r bo; 9 h bo 2; 10 + al 1 2 /
1 h cy 1; 4 h al 1; 6 h bo 1
1 h al 1; 2 h bo 1; 2 r al; 3 h al 2; 6 o al 2 1 1 /c {"b":2}
2 h cy 1; 5 h al 1; 7 o al 1 1 1 /b null
1 h cy 1; 4 h cy 2; 6 h al 1
2 h al 1; 2 h cy 1; 3 o cy 1 1 1 / {".sv":"timestamp"}; 5 o cy 1 2 1 / {".sv":"timestamp"}; 7 h al 2
0 h al 1; 1 o al 1 1 1 /c {".sv":"timestamp"}; 2 h cy 1; 5 l al 1 2 /c 1; 8 - al 1 3 /b; 8 + cy 1 1 /; 11 + cy 1 1 /; 13 h bo 1
1 h bo 1; 2 h al 1; 2 h cy 1; 4 r al; 5 o bo 1 1 1 /c {".sv":"timestamp"}; 6 + cy 1 1 /a/b
0 h al 1; 0 h cy 1; 3 t al 1 1 1 / {"b":2} true; 5 o cy 1 1 1 /b 1; 6 h bo 1; 9 h al 2; 10 + cy 1 2 /a/b; 10 l bo 1 1 /a/b true
2 h al 1; 4 o al 1 1 1 /a/b {".sv":"timestamp"}; 6 h cy 1; 7 h bo 1; 10 h bo 2; 12 o al 1 2 1 /a/b true; 13 t cy 1 1 1 / 1 null
2 h cy 1; 5 h bo 1; 5 l cy 1 1 /a 1; 8 l bo 1 1 /b true; 11 + cy 1 2 /c
1 h cy 1; 4 h bo 1; 7 h al 1; 7 h al 1; 9 o cy 1 1 1 /c 1; 10 c al 1 1 /a; 13 l bo 1 1 /c null; 14 c cy 1 2 /
3 h bo 1; 5 o bo 1 1 1 /c {"b":2}; 7 h al 1; 9 o bo 1 2 2 / true; 11 h cy 1; 13 - al 1 1 /a
2 h bo 1; 3 h cy 1; 3 h al 1; 3 h al 1; 5 o al 1 1 1 /a true; 5 + al 1 2 /a; 5 h al 2; 8 c cy 1 1 /a
2 h bo 1; 2 o bo 1 1 1 /c {"b":2}; 5 h cy 1; 7 o cy 1 1 1 /c {"b":2}; 7 l cy 1 2 /b {"b":2}; 7 o bo 1 2 2 / {".sv":"timestamp"}; 7 o cy 1 3 2 / null
0 h cy 1; 3 h al 1; 5 l al 1 1 / 1; 7 h bo 1; 7 + al 1 2 /; 7 c cy 1 1 /a/b; 9 t al 1 3 1 /a 1 {"b":2}
2 h bo 1; 4 o bo 1 1 1 /c true; 6 h al 1; 7 o bo 1 2 3 /a 1; 7 o bo 1 2 3 /a 1; 10 b bo 1 2
1 h cy 1; 3 h bo 1; 3 h al 1; 5 r bo; 7 + al 1 1 /; 10 o cy 1 1 1 /a/b null
3 h bo 1; 6 h al 1; 9 t bo 1 1 1 /c true {"b":2}; 10 o bo 1 2 3 /a 1
3 h cy 1; 5 h bo 1; 7 o bo 1 1 1 /a true; 10 c cy 1 1 /; 12 c cy 1 1 /; 12 t cy 1 2 1 /c null {"b":2}; 15 h al 1
3 h bo 1; 6 h al 1; 9 + al 1 1 /a/b; 9 k; 9 h cy 1; 11 l al 1 2 / null
2 h cy 1; 3 h bo 1; 6 h bo 1; 6 h al 1; 7 + bo 1 1 /a; 8 o al 1 1 1 /a/b {"b":2}; 9 o al 1 1 1 /a/b {"b":2}; 12 h bo 2; 15 l cy 1 1 /a true
3 h bo 1; 6 h bo 2; 6 h cy 1; 8 h al 1; 8 r bo; 9 l cy 1 1 /a {"b":2}; 10 h al 2
1 h bo 1; 2 l bo 1 1 /b 1; 4 h cy 1; 4 t bo 1 2 1 / true null; 7 o cy 1 1 1 /a null
3 h al 1; 5 h bo 1; 7 h bo 2; 8 r bo; 11 h cy 1; 14 + cy 1 1 /b; 14 b al 1 1; 15 h bo 3
2 h al 1; 2 k; 2 h bo 1; 5 t al 1 1 1 /a/b null true; 5 l al 1 2 /a {".sv":"timestamp"}; 5 t al 1 3 1 /b true {"b":2}
2 h bo 1; 4 h al 1; 5 h cy 1; 7 o cy 1 1 1 /c true; 7 c cy 1 2 /a/b; 10 + cy 1 3 /a
0 h bo 1; 3 h bo 2; 5 b bo 2 1
0 h al 1; 1 b al 1 1; 3 h bo 1
0 h bo 1; 1 h al 1; 4 l al 1 1 /a/b null
0 h bo 1; 0 h cy 1; 1 c cy 1 1 /c
1 h bo 1; 1 h al 1; 4 h cy 1; 5 c bo 1 1 /b; 6 + cy 1 1 /a/b
0 h al 1; 2 h al 1; 5 h cy 1
0 h al 1; 0 h cy 1; 3 o al 1 1 1 /a null; 5 r al; 6 h bo 1; 7 o cy 1 1 1 /b true; 8 o bo 1 1 1 /c 1; 10 h al 2; 12 + cy 1 2 /a
3 h cy 1; 4 h bo 1; 4 c bo 1 1 /a; 6 + bo 1 2 /; 9 h al 1
3 h cy 1; 3 h bo 1; 5 h al 1; 5 l bo 1 1 / {".sv":"timestamp"}; 7 l bo 1 1 / {".sv":"timestamp"}; 8 o cy 1 1 1 /c 1; 10 k; 13 k
1 h al 1; 2 h al 1; 5 h cy 1; 5 h bo 1; 5 l cy 1 1 /c null; 8 l cy 1 1 /c null; 9 h cy 2
2 h al 1; 4 h bo 1; 5 + bo 1 1 /c
3 h al 1; 6 h bo 1; 7 h al 2; 7 h al 3
3 h bo 1; 3 h al 1; 5 h cy 1; 7 o cy 1 1 1 /a/b true; 10 c al 1 1 /; 12 l al 1 2 / 1; 15 o al 1 3 1 /a/b 1
3 h bo 1; 6 h al 1; 9 h al 1; 11 c al 1 1 /c
1 h bo 1; 3 + bo 1 1 /b; 6 h cy 1
0 h bo 1; 3 o bo 1 1 1 /c true; 4 h al 1; 6 h cy 1; 9 o cy 1 1 1 /c true
2 h bo 1; 5 o bo 1 1 1 /c 1; 6 h al 1; 7 h cy 1; 9 x bo 1; 11 h bo 2
2 h cy 1; 4 + cy 1 1 /a/b; 5 l cy 1 2 /c 1; 5 h bo 1; 6 o bo 1 1 1 /a/b true
1 h bo 1; 2 h cy 1; 3 - bo 1 1 /a/b; 3 o cy 1 1 1 /c {"b":2}
0 h bo 1; 1 h bo 1; 3 h cy 1; 5 r cy; 8 r cy
1 h bo 1; 3 h cy 1; 3 t bo 1 1 1 / {"b":2} null; 4 c bo 1 2 /b; 7 - bo 1 3 /a; 10 o cy 1 1 1 /a/b true; 10 c bo 1 4 /a/b; 10 h al 1; 10 + al 1 1 /b
0 h cy 1; 3 t cy 1 1 1 / null true; 6 h bo 1; 9 o cy 1 2 2 /a null; 9 h al 1
3 h bo 1; 6 h al 1; 9 h cy 1
1 h al 1; 1 l al 1 1 /a/b null; 4 h bo 1; 5 r bo; 6 r al; 7 h cy 1; 10 h bo 2; 11 - cy 1 1 /b; 11 h al 2
3 h cy 1; 3 o cy 1 1 1 /a/b true; 3 h al 1; 4 h bo 1; 4 c al 1 1 /a/b; 4 l bo 1 1 /c true; 5 k; 7 t al 1 2 1 /a/b true {"b":2}
2 h cy 1; 2 t cy 1 1 1 /c {"b":2} {"b":2}; 2 h bo 1; 3 l bo 1 1 / null; 5 t cy 1 2 2 /a {"b":2} {"b":2}; 5 o bo 1 2 1 / 1
2 h cy 1; 2 h cy 1; 2 h al 1
1 h cy 1; 2 + cy 1 1 /b; 3 + cy 1 1 /b; 5 k; 5 h al 1; 7 h al 1; 7 h cy 2; 8 + al 1 1 /; 8 l cy 2 1 /c {".sv":"timestamp"}
1 h cy 1; 3 h al 1; 3 t cy 1 1 1 /a/b 1 1; 5 o al 1 1 1 /c 1
0 h cy 1; 0 h al 1; 2 h bo 1
2 h bo 1; 5 h cy 1; 6 c cy 1 1 /a; 9 h al 1; 11 + bo 1 1 /a; 12 b cy 1 2; 14 h cy 2; 17 + bo 1 2 /c; 17 b al 1 1
2 h al 1; 5 h al 1; 6 h cy 1
1 h cy 1; 4 o cy 1 1 1 / {"b":2}; 5 h al 1; 7 r al
3 h cy 1; 6 h al 1; 6 o al 1 1 1 /c {"b":2}; 8 o al 1 1 1 /c {"b":2}; 9 + al 1 2 /a
2 h cy 1; 2 h al 1; 3 h bo 1; 5 t al 1 1 1 /c null null; 7 l al 1 2 /c 1; 10 l al 1 3 /c 1; 12 t cy 1 1 1 / 1 true; 14 t cy 1 1 1 / 1 true; 16 t cy 1 1 1 / 1 true
3 h cy 1; 6 h bo 1; 6 l bo 1 1 /a null; 8 l bo 1 2 /a/b {"b":2}
3 h bo 1; 4 l bo 1 1 / null; 7 l bo 1 1 / null
0 h bo 1; 2 h cy 1; 4 h al 1
0 h bo 1; 1 h al 1; 1 h al 2; 3 o al 2 1 1 /a/b {".sv":"timestamp"}; 4 + bo 1 1 /a/b
2 h cy 1; 4 h al 1; 5 o al 1 1 1 / {"b":2}
3 h bo 1; 3 h cy 1; 4 c bo 1 1 /b; 5 r cy; 6 h al 1; 8 h cy 2; 8 o al 1 1 1 /b {"b":2}; 8 x cy 2
2 h cy 1; 5 h al 1; 6 + cy 1 1 /c; 9 + cy 1 1 /c; 9 l al 1 1 /c 1; 10 + cy 1 2 /a/b; 13 c al 1 2 /b; 15 h bo 1; 15 t al 1 3 1 /a/b {"b":2} 1
0 h cy 1; 3 o cy 1 1 1 /b 1; 3 h al 1; 6 h bo 1
3 h bo 1; 5 h bo 1; 7 h cy 1; 9 h al 1; 10 b al 1 1; 10 + bo 1 1 /b; 13 h al 2
0 h al 1; 2 h cy 1; 2 k; 5 + cy 1 1 /a/b; 7 + al 1 1 /b; 9 o cy 1 2 1 /a/b 1; 11 h bo 1
1 h al 1; 1 h bo 1; 3 - bo 1 1 /a; 5 k; 8 c bo 1 2 /c; 11 c bo 1 2 /c; 12 r bo; 15 h bo 2; 16 h cy 1
0 h al 1; 1 h cy 1; 3 h bo 1; 3 t cy 1 1 1 /b true {"b":2}; 3 t bo 1 1 1 / null {"b":2}
2 h cy 1; 2 h bo 1; 3 l bo 1 1 /b 1; 4 x cy 1; 7 h cy 2; 10 h cy 2
3 h al 1; 4 h bo 1; 5 h bo 1
3 h cy 1; 4 h al 1; 5 h bo 1; 8 h bo 2
0 h cy 1; 1 h bo 1; 4 + cy 1 1 /; 5 + bo 1 1 /c; 6 h al 1; 8 r bo; 11 + cy 1 2 /c; 13 l cy 1 3 / null
2 h bo 1; 2 o bo 1 1 1 /a {".sv":"timestamp"}; 4 o bo 1 2 1 /a {"b":2}; 7 h cy 1
1 h bo 1; 3 h bo 1; 6 h al 1; 8 h cy 1; 9 - bo 1 1 /; 9 o cy 1 1 1 /a/b null; 11 t al 1 1 1 /a {"b":2} {"b":2}; 11 o cy 1 2 2 /b null
3 h cy 1; 4 c cy 1 1 /a; 6 h al 1; 8 o cy 1 2 1 / true; 11 h bo 1; 13 - al 1 1 /b
2 h al 1; 2 h bo 1; 4 h cy 1; 5 t cy 1 1 1 /c null 1; 6 o al 1 1 1 /a 1; 9 o al 1 2 2 /b {".sv":"timestamp"}
3 h al 1; 5 h cy 1; 5 h bo 1
0 h cy 1; 2 h al 1; 2 t al 1 1 1 /b null {"b":2}; 3 h al 2; 3 o cy 1 1 1 /c {".sv":"timestamp"}; 5 k
2 h cy 1; 2 o cy 1 1 1 /c {"b":2}; 3 h bo 1; 4 h al 1; 6 o cy 1 2 2 /a/b {".sv":"timestamp"}; 7 o bo 1 1 1 /a/b true; 8 o bo 1 2 2 /c 1; 9 + bo 1 3 /c; 10 r bo
1 h bo 1; 2 h bo 1; 5 h bo 1
1 h bo 1; 1 h cy 1; 3 h al 1; 3 x al 1; 3 x al 1; 5 + bo 1 1 /c
1 h cy 1; 3 h al 1; 3 t cy 1 1 1 /c {"b":2} null; 6 t cy 1 1 1 /c {"b":2} null; 6 x al 1; 6 h al 2; 9 t cy 1 2 2 /a/b {"b":2} {"b":2}; 11 h bo 1; 14 c cy 1 3 /c
2 h bo 1; 5 h cy 1; 6 l cy 1 1 /b 1; 8 o cy 1 2 1 /b {".sv":"timestamp"}; 9 x cy 1; 11 h cy 2; 13 - bo 1 1 /c
0 h cy 1; 3 h bo 1; 6 h al 1
2 h al 1; 5 h bo 1; 7 t al 1 1 1 /b null true; 10 o bo 1 1 1 / {"b":2}; 10 + bo 1 2 /c; 10 h cy 1
0 h bo 1; 0 h al 1; 3 t al 1 1 1 /b true true; 5 - al 1 2 /c; 5 h cy 1; 6 + bo 1 1 /a; 8 t bo 1 2 1 /c null 1; 10 o bo 1 3 2 / {".sv":"timestamp"}; 10 o al 1 3 3 /a 1
1 h al 1; 3 h cy 1; 5 o cy 1 1 1 /c true; 5 l cy 1 2 / null; 5 l cy 1 3 /c {".sv":"timestamp"}
2 h al 1; 3 h cy 1; 6 o al 1 1 1 /b {".sv":"timestamp"}; 6 h bo 1; 7 o al 1 2 2 / 1
3 h cy 1; 6 h al 1; 9 h bo 1; 10 o bo 1 1 1 /a {".sv":"timestamp"}; 12 x bo 1; 14 l cy 1 1 /b {"b":2}
2 h cy 1; 2 h bo 1; 5 o bo 1 1 1 /b {".sv":"timestamp"}; 8 b cy 1 1; 8 k; 11 h cy 2; 14 - bo 1 2 /; 17 + cy 2 1 /; 18 h al 1
3 h cy 1; 4 x cy 1; 5 h cy 2; 7 h bo 1; 10 h al 1; 11 o bo 1 1 1 /c {".sv":"timestamp"}; 12 c al 1 1 /; 14 o al 1 2 1 /a/b null
1 h bo 1; 1 o bo 1 1 1 /a/b {"b":2}; 1 h al 1; 1 l bo 1 2 /b null; 3 t bo 1 3 2 /c true {"b":2}; 4 h cy 1; 5 h cy 1; 7 + cy 1 1 /c
1 h al 1; 4 h cy 1; 4 h cy 2; 6 h bo 1; 9 o cy 2 1 1 /a/b 1; 12 l al 1 1 /a true
2 h bo 1; 3 c bo 1 1 /; 4 h al 1
0 h bo 1; 3 h bo 2; 6 h al 1; 9 l bo 2 1 / {".sv":"timestamp"}
0 h bo 1; 1 r bo; 3 h bo 2; 3 h al 1; 4 c al 1 1 /b; 5 c al 1 2 /a; 6 c bo 2 1 /; 6 t bo 2 2 1 /a/b 1 1
3 h bo 1; 6 h al 1; 8 o bo 1 1 1 /b 1; 9 h cy 1; 10 c cy 1 1 /c; 13 c cy 1 1 /c; 16 o cy 1 2 1 /b {"b":2}
2 h al 1; 3 h bo 1; 6 o al 1 1 1 / 1
3 h al 1; 4 h bo 1; 4 h bo 1; 5 t bo 1 1 1 /b 1 null
1 h cy 1; 2 o cy 1 1 1 /c true; 5 h bo 1; 6 c bo 1 1 /; 6 h al 1; 6 o cy 1 2 2 /b {"b":2}; 7 + bo 1 2 /
2 h al 1; 5 h cy 1; 6 h bo 1; 6 + al 1 1 /c; 6 l cy 1 1 /c {"b":2}; 7 l bo 1 1 / 1; 7 c al 1 2 /; 7 o cy 1 2 1 /a/b null; 10 l cy 1 3 /a null
1 h cy 1; 1 h al 1; 4 c cy 1 1 /c; 6 + al 1 1 /; 8 + al 1 2 /; 8 h al 2; 11 h bo 1; 11 o bo 1 1 1 /a/b null
1 h cy 1; 4 l cy 1 1 / null; 4 h al 1; 7 h bo 1
3 h al 1; 5 t al 1 1 1 /a/b {"b":2} true; 7 h cy 1; 10 o al 1 2 2 /c 1; 10 h al 2; 12 t cy 1 1 1 /b null 1; 14 h al 3; 15 + cy 1 2 /a/b
0 h cy 1; 0 o cy 1 1 1 /c null; 1 h al 1; 2 r al; 2 h bo 1; 4 h al 2; 4 t cy 1 2 2 /a/b {"b":2} 1; 5 t cy 1 3 2 /a/b true true; 6 k
1 h al 1; 3 h cy 1; 5 + cy 1 1 /; 7 l cy 1 2 /a true; 9 h bo 1; 11 l bo 1 1 /a null
0 h cy 1; 2 h al 1; 2 k; 4 k
2 h bo 1; 2 h cy 1; 2 t cy 1 1 1 / {"b":2} null; 2 l bo 1 1 /c {".sv":"timestamp"}; 5 b cy 1 2
2 h cy 1; 5 h al 1; 5 o al 1 1 1 /a null
2 h al 1; 5 r al; 7 h bo 1; 9 l bo 1 1 /b {"b":2}; 11 l bo 1 2 /b {".sv":"timestamp"}; 13 l bo 1 3 /a/b 1
2 h bo 1; 4 l bo 1 1 /b true; 4 h al 1; 7 c al 1 1 /c; 7 h cy 1
0 h al 1; 3 h bo 1; 5 k; 7 k
3 h al 1; 4 h bo 1; 7 c al 1 1 /b; 9 - bo 1 1 /; 10 h cy 1; 10 c bo 1 2 /; 12 o cy 1 1 1 / {".sv":"timestamp"}; 12 b al 1 2
3 h bo 1; 3 h cy 1; 4 l cy 1 1 /b 1; 4 l cy 1 2 /b {"b":2}; 7 l cy 1 3 / {"b":2}; 10 r bo; 13 o cy 1 4 1 /a/b {".sv":"timestamp"}; 14 + cy 1 5 /c; 17 h bo 2
1 h cy 1; 3 h bo 1; 3 l bo 1 1 /a/b {"b":2}; 6 l bo 1 1 /a/b {"b":2}; 6 h al 1; 8 l bo 1 2 / {"b":2}
2 h cy 1; 5 h bo 1; 8 l cy 1 1 / {".sv":"timestamp"}
2 h cy 1; 2 h al 1; 2 + cy 1 1 /a/b; 3 h bo 1; 6 o al 1 1 1 /b {".sv":"timestamp"}; 7 + al 1 2 /c; 7 o cy 1 2 1 / {".sv":"timestamp"}; 8 t bo 1 1 1 /c null {"b":2}; 10 b al 1 3
0 h al 1; 3 h cy 1; 3 k; 3 - al 1 1 /c; 3 o cy 1 1 1 /a {".sv":"timestamp"}; 3 h bo 1
2 h cy 1; 3 + cy 1 1 /c; 5 h al 1
3 h al 1; 3 o al 1 1 1 /c 1; 6 h cy 1; 6 o al 1 2 2 /a/b {"b":2}; 7 o al 1 3 3 /b {"b":2}; 7 o al 1 3 3 /b {"b":2}; 8 + cy 1 1 /a/b; 11 b al 1 4; 14 h al 2
0 h cy 1; 2 h bo 1; 2 l cy 1 1 /b {"b":2}; 2 h al 1; 4 t al 1 1 1 /a {"b":2} {"b":2}; 7 o bo 1 1 1 / null; 10 l al 1 2 /c {".sv":"timestamp"}; 10 l bo 1 2 /a/b {".sv":"timestamp"}
0 h al 1; 2 h bo 1; 3 l bo 1 1 /a/b null; 3 h cy 1; 4 + bo 1 2 /a/b; 4 o bo 1 3 1 /b 1; 7 r al
1 h bo 1; 4 h cy 1; 4 k; 7 k; 7 l cy 1 1 / {"b":2}; 8 r bo; 8 h al 1; 11 o al 1 1 1 /a/b 1; 11 h bo 2
3 h bo 1; 6 h al 1; 7 o bo 1 1 1 /a/b {".sv":"timestamp"}
2 h al 1; 5 h cy 1; 7 o al 1 1 1 /c 1; 9 o cy 1 1 1 /b 1; 9 o al 1 2 2 /b true; 10 t al 1 3 3 / null 1; 10 h bo 1
0 h cy 1; 0 h al 1; 2 h al 1
1 h cy 1; 2 h al 1; 3 b cy 1 1; 5 h bo 1; 6 b bo 1 1; 6 h bo 2; 7 o al 1 1 1 /b null; 10 c al 1 2 /; 10 h cy 2
1 h al 1; 4 h cy 1; 6 h bo 1; 9 t cy 1 1 1 /c 1 1; 12 l al 1 1 /a/b 1; 15 k
0 h cy 1; 0 h bo 1; 1 l cy 1 1 /a {"b":2}
2 h al 1; 5 h al 1; 7 h cy 1; 7 - cy 1 1 /a/b
2 h al 1; 2 c al 1 1 /a; 5 c al 1 1 /a; 5 c al 1 1 /a; 8 h bo 1; 10 l al 1 2 /a null
1 h al 1; 2 h cy 1; 5 t al 1 1 1 /a null {"b":2}; 6 h bo 1; 9 l cy 1 1 / {"b":2}; 10 r bo
2 h bo 1; 5 h cy 1; 8 o cy 1 1 1 / true; 11 h al 1; 13 l cy 1 2 /c {".sv":"timestamp"}; 14 o bo 1 1 1 /a null; 14 t al 1 1 1 / {"b":2} {"b":2}; 15 c bo 1 2 /c; 15 + bo 1 3 /a/b
1 h al 1; 4 r al; 4 h al 2; 6 h cy 1
3 h al 1; 6 h cy 1; 8 c al 1 1 /; 9 l al 1 2 /b null; 11 o cy 1 1 1 / {"b":2}; 11 r al; 14 h al 2; 15 c cy 1 2 /
0 h cy 1; 2 o cy 1 1 1 / true; 5 h al 1
1 h cy 1; 3 h cy 1; 5 h al 1; 7 l al 1 1 / true
0 h cy 1; 0 h al 1; 2 h al 2; 3 o cy 1 1 1 / 1; 6 + al 2 1 /a; 9 o cy 1 2 2 /b true; 12 h bo 1; 12 o bo 1 1 1 /a {"b":2}; 13 o bo 1 1 1 /a {"b":2}
0 h cy 1; 2 h al 1; 3 x al 1; 5 x al 1
2 h bo 1; 2 h cy 1; 5 h al 1; 7 o al 1 1 1 / {"b":2}
2 h cy 1; 2 c cy 1 1 /c; 5 h bo 1; 7 l bo 1 1 /c true; 7 r bo; 9 r bo; 12 h bo 2; 13 h al 1; 15 o bo 2 1 1 / {"b":2}
1 h cy 1; 4 r cy; 6 h al 1
1 h al 1; 3 + al 1 1 /c; 5 h bo 1; 6 h cy 1; 8 + bo 1 1 /a/b; 11 x cy 1; 14 l al 1 2 /b null; 14 h cy 2; 15 h cy 2
2 h bo 1; 3 h cy 1; 3 h al 1; 5 h bo 2; 5 t al 1 1 1 /a 1 null; 7 k
3 h al 1; 5 h bo 1; 8 - bo 1 1 /c; 9 h cy 1; 10 + cy 1 1 /c; 11 o bo 1 2 1 /a/b {"b":2}
1 h al 1; 3 h bo 1; 6 c al 1 1 /a/b
3 h al 1; 3 h bo 1; 5 l al 1 1 /a/b {"b":2}; 7 h cy 1; 7 l al 1 2 /c true
2 h bo 1; 2 h bo 1; 5 h al 1; 7 l al 1 1 /a true; 10 k; 12 r bo; 14 o al 1 2 1 /c {"b":2}; 15 h bo 2
0 h cy 1; 3 h bo 1; 6 o cy 1 1 1 /a/b true; 9 h al 1; 9 r bo; 10 h bo 2
1 h bo 1; 4 h al 1; 4 l al 1 1 / null; 7 b bo 1 1; 8 h bo 2; 11 + al 1 2 /a/b; 13 + al 1 3 /b
3 h bo 1; 5 h al 1; 7 + bo 1 1 /; 9 o al 1 1 1 /c null; 10 h cy 1; 11 h cy 1
0 h al 1; 0 h cy 1; 0 o cy 1 1 1 / null; 0 l cy 1 2 /b {".sv":"timestamp"}; 0 k; 0 h bo 1; 2 o bo 1 1 1 /a/b {"b":2}; 4 t al 1 1 1 /c null null
3 h al 1; 3 h cy 1; 6 + al 1 1 /a; 7 h bo 1; 10 o bo 1 1 1 /c true; 10 o al 1 2 1 /a {"b":2}; 13 o al 1 2 1 /a {"b":2}
1 h bo 1; 1 h bo 2; 3 h cy 1; 3 o bo 2 1 1 /a 1; 5 l cy 1 1 /c {"b":2}; 8 t cy 1 2 1 /b true null
0 h bo 1; 2 o bo 1 1 1 /a null; 4 t bo 1 2 1 /b null 1; 4 h cy 1; 6 t bo 1 3 2 /c 1 true; 8 - bo 1 4 /b; 9 h al 1
1 h al 1; 2 h bo 1; 5 o al 1 1 1 /b {".sv":"timestamp"}; 7 r al; 7 h al 2; 8 h al 2; 11 o bo 1 1 1 /a/b null; 12 o bo 1 1 1 /a/b null; 14 h cy 1
2 h bo 1; 2 h bo 1; 5 h cy 1; 8 h al 1; 11 + al 1 1 /a; 14 - cy 1 1 /; 14 o bo 1 1 1 /a null
1 h cy 1; 2 h al 1; 3 h bo 1; 5 x bo 1; 7 o al 1 1 1 / {".sv":"timestamp"}; 9 r cy; 9 h cy 2; 11 o cy 2 1 1 /a 1; 11 + cy 2 2 /a/b
1 h bo 1; 3 t bo 1 1 1 /a 1 1; 6 h cy 1; 7 + bo 1 2 /a/b; 8 x bo 1; 8 h al 1; 11 + al 1 1 /c
2 h al 1; 5 h bo 1; 6 c al 1 1 /; 6 k
1 h bo 1; 1 h al 1; 2 h cy 1; 5 - al 1 1 /c; 6 + bo 1 1 /a/b; 8 + bo 1 1 /a/b; 8 o al 1 2 1 /b null; 10 l cy 1 1 /b null; 10 x al 1
0 h al 1; 2 + al 1 1 /c; 3 h cy 1; 3 h bo 1; 6 - cy 1 1 /; 6 t al 1 2 1 /b {"b":2} null; 8 + al 1 3 /c; 8 o cy 1 2 1 /c null; 8 o cy 1 2 1 /c null
2 h al 1; 4 h cy 1; 6 o cy 1 1 1 /a/b {".sv":"timestamp"}; 9 l al 1 1 /b {"b":2}; 12 l cy 1 2 /a true
3 h al 1; 6 h bo 1; 7 h cy 1; 10 t bo 1 1 1 /b true true; 10 t al 1 1 1 /c {"b":2} true; 12 o al 1 2 1 / {"b":2}
0 h bo 1; 0 h cy 1; 0 h al 1; 1 o cy 1 1 1 /a/b null; 3 l al 1 1 / {"b":2}; 6 c al 1 2 /; 8 t bo 1 1 1 /c true 1; 8 - bo 1 2 /c
1 h cy 1; 4 l cy 1 1 / true; 5 h cy 2; 5 h bo 1
2 h bo 1; 3 h al 1; 3 h al 1
3 h cy 1; 3 h bo 1; 3 h bo 1; 5 h al 1; 5 c cy 1 1 /b; 5 o bo 1 1 1 /a true; 6 b cy 1 2
3 h bo 1; 5 t bo 1 1 1 /b 1 {"b":2}; 5 c bo 1 2 /a/b; 6 h al 1; 8 + al 1 1 /a; 11 h cy 1; 13 h cy 1; 16 t bo 1 3 2 /a/b null {"b":2}; 17 t bo 1 4 3 /b null 1
0 h bo 1; 2 h al 1; 4 o al 1 1 1 /b {".sv":"timestamp"}; 5 h cy 1
1 h bo 1; 2 h cy 1; 2 h al 1; 4 k; 4 l cy 1 1 /a {".sv":"timestamp"}; 6 o bo 1 1 1 /b null; 9 l cy 1 2 /c {".sv":"timestamp"}; 10 + cy 1 3 /a
1 h cy 1; 3 h al 1; 3 h bo 1; 5 - cy 1 1 /b; 7 c bo 1 1 /; 7 x cy 1; 9 x cy 1; 12 h cy 2
0 h cy 1; 3 + cy 1 1 /b; 3 h al 1; 6 c cy 1 2 /b; 6 h bo 1
0 h bo 1; 2 b bo 1 1; 4 h cy 1; 5 h al 1; 7 l al 1 1 / null; 8 l al 1 2 /c 1; 11 o cy 1 1 1 /c 1
1 h bo 1; 4 h cy 1; 5 h cy 1; 8 + cy 1 1 /a; 11 h al 1
3 h al 1; 6 h cy 1; 9 o al 1 1 1 /a/b {"b":2}
3 h cy 1; 3 h bo 1; 5 h al 1; 8 o al 1 1 1 /a/b 1
2 h al 1; 3 o al 1 1 1 /c null; 5 h bo 1; 7 h cy 1; 10 o al 1 2 2 /c 1; 12 l cy 1 1 /b {"b":2}; 15 o bo 1 1 1 /a/b 1; 15 o cy 1 2 1 /a 1
2 h cy 1; 5 h bo 1; 8 t bo 1 1 1 /c 1 null; 11 o cy 1 1 1 / 1; 12 o cy 1 1 1 / 1; 13 o cy 1 2 2 /c 1; 15 o cy 1 3 1 /b {".sv":"timestamp"}; 15 - cy 1 4 /; 16 o bo 1 2 2 /c null
2 h bo 1; 5 + bo 1 1 /a; 6 h al 1; 8 l al 1 1 /c 1; 8 - al 1 2 /a; 11 h cy 1
2 h bo 1; 2 h al 1; 4 h cy 1; 5 l cy 1 1 /a null
1 h al 1; 4 h cy 1; 4 h al 2; 5 k; 8 h bo 1; 9 o bo 1 1 1 /a/b {"b":2}; 10 + bo 1 2 /b; 12 r bo; 13 l al 2 1 /a {".sv":"timestamp"}
1 h al 1; 3 h bo 1; 5 x bo 1; 7 h bo 2; 10 o al 1 1 1 / null; 13 - al 1 2 /
3 h al 1; 3 h bo 1; 5 h cy 1; 6 h cy 1; 7 t cy 1 1 1 /c 1 true; 9 k; 9 - al 1 1 /a/b; 12 o cy 1 2 2 /a null
1 h cy 1; 4 h bo 1; 5 h al 1
3 h al 1; 3 h cy 1; 6 + cy 1 1 /b; 8 - cy 1 2 /; 11 h bo 1; 14 h al 2
3 h al 1; 3 t al 1 1 1 /a/b null 1; 5 h cy 1; 7 t cy 1 1 1 /c null 1; 9 + cy 1 2 /a/b; 12 o cy 1 3 2 /b null
2 h cy 1; 4 h bo 1; 4 h al 1; 4 o cy 1 1 1 /b {".sv":"timestamp"}; 7 l al 1 1 /b null
3 h cy 1; 4 h cy 1; 6 o cy 1 1 1 /a null
2 h bo 1; 2 h cy 1; 4 l cy 1 1 /a/b 1; 4 o cy 1 2 1 /b {"b":2}; 7 o bo 1 1 1 /b true; 9 + bo 1 2 /a/b
1 h al 1; 4 o al 1 1 1 /c null; 4 o al 1 2 1 / {"b":2}; 5 h bo 1; 8 h cy 1; 9 b bo 1 1; 11 r cy; 11 h bo 2
3 h cy 1; 4 k; 5 h al 1; 6 o cy 1 1 1 / null; 8 l cy 1 2 /c {".sv":"timestamp"}; 10 h bo 1; 13 t al 1 1 1 / true {"b":2}; 15 x bo 1; 18 h al 2
3 h al 1; 5 h cy 1; 8 o al 1 1 1 /b null; 11 h bo 1; 12 + bo 1 1 /b; 15 h bo 2; 18 + al 1 2 /c
3 h bo 1; 3 h al 1; 5 h cy 1; 7 - cy 1 1 /; 7 l cy 1 2 /c {".sv":"timestamp"}; 9 l al 1 1 /c 1; 12 o al 1 2 1 /a/b true
0 h cy 1; 1 h bo 1; 1 h al 1; 2 c bo 1 1 /a; 2 + cy 1 1 /; 3 r al
2 h bo 1; 5 h al 1; 8 o al 1 1 1 / 1; 8 h bo 2; 9 h cy 1; 10 t bo 2 1 1 /a/b 1 null; 13 b bo 2 2; 16 + al 1 2 /b
2 h al 1; 4 h cy 1; 7 o cy 1 1 1 /a/b true; 8 o al 1 1 1 /a true; 8 b al 1 2; 9 h al 2; 10 h bo 1; 12 c bo 1 1 /a/b
2 h al 1; 5 h cy 1; 7 h bo 1; 9 c bo 1 1 /b; 11 o bo 1 2 1 /a 1; 13 o al 1 1 1 /b true; 16 t al 1 2 2 /c 1 null
3 h al 1; 4 h cy 1; 4 t cy 1 1 1 / null 1; 4 o al 1 1 1 /c {".sv":"timestamp"}; 4 t al 1 2 2 / true {"b":2}; 4 t al 1 2 2 / true {"b":2}; 6 o cy 1 2 2 /c {"b":2}
2 h bo 1; 2 h al 1; 4 h cy 1; 4 r bo; 4 o cy 1 1 1 /b 1; 5 h bo 2
2 h bo 1; 2 h al 1; 3 l bo 1 1 / {".sv":"timestamp"}; 4 o al 1 1 1 /a 1; 4 o bo 1 2 1 / {"b":2}; 7 t al 1 2 2 /a true {"b":2}
3 h cy 1; 5 h cy 2; 7 l cy 2 1 /b 1; 9 h al 1
1 h cy 1; 2 h al 1; 3 l al 1 1 /b true; 3 h bo 1; 6 l al 1 2 / {"b":2}
2 h cy 1; 2 h bo 1; 2 c cy 1 1 /a; 2 h al 1; 2 o al 1 1 1 /c null; 4 c bo 1 1 /c; 4 + bo 1 2 /a; 4 o cy 1 2 1 /a 1
0 h bo 1; 2 h cy 1; 3 x bo 1; 4 h bo 2; 6 h cy 2; 6 l cy 2 1 /c null; 6 h al 1
2 h bo 1; 2 h cy 1; 3 h cy 1; 5 h al 1; 5 r al; 8 h al 2; 9 l bo 1 1 / true; 12 t bo 1 2 1 /c {"b":2} {"b":2}
0 h al 1; 3 h cy 1; 6 t cy 1 1 1 /a {"b":2} null
2 h al 1; 3 l al 1 1 /a/b {".sv":"timestamp"}; 3 o al 1 2 1 / {".sv":"timestamp"}; 4 h cy 1; 6 h bo 1; 9 - cy 1 1 /a; 11 + cy 1 2 /a
0 h bo 1; 3 h cy 1; 4 h al 1; 5 r cy; 8 t bo 1 1 1 /a {"b":2} true; 11 h al 2; 14 h cy 2; 17 o al 2 1 1 / true; 20 r bo
3 h al 1; 6 c al 1 1 /a/b; 7 o al 1 2 1 /b 1; 9 h bo 1; 9 h cy 1; 12 c bo 1 1 /c
1 h al 1; 1 + al 1 1 /b; 1 h cy 1; 2 l al 1 2 /a/b 1; 4 l al 1 3 /c null
2 h cy 1; 2 h al 1; 5 + cy 1 1 /; 7 o al 1 1 1 /a true; 8 o al 1 2 2 /a/b 1; 11 h bo 1; 14 + al 1 3 /c; 17 l bo 1 1 /a/b null
0 h cy 1; 3 h bo 1; 6 l cy 1 1 /c 1; 8 r bo
2 h bo 1; 3 o bo 1 1 1 /b {".sv":"timestamp"}; 5 h cy 1; 7 k; 8 o bo 1 2 1 /a/b {"b":2}; 11 l cy 1 1 / true
1 h bo 1; 4 h al 1; 7 h cy 1; 8 o bo 1 1 1 /a/b {".sv":"timestamp"}; 8 x cy 1; 9 h cy 2; 12 r cy; 13 t bo 1 2 2 /a/b true true
2 h cy 1; 3 x cy 1; 3 h bo 1
0 h cy 1; 0 h bo 1; 2 - bo 1 1 /c; 2 - bo 1 2 /a
0 h al 1; 1 h bo 1; 3 b al 1 1; 5 h al 2; 6 h cy 1; 8 c bo 1 1 /c; 10 t bo 1 2 1 /b 1 {"b":2}; 10 t bo 1 2 1 /b 1 {"b":2}
1 h al 1; 4 h cy 1; 4 k; 4 o cy 1 1 1 /a/b {"b":2}; 5 o al 1 1 1 /c {"b":2}; 7 h bo 1; 7 c cy 1 2 /; 8 o cy 1 3 1 /a/b {".sv":"timestamp"}
1 h al 1; 2 c al 1 1 /a/b; 2 r al; 5 h cy 1; 6 h bo 1; 9 h al 2; 11 o bo 1 1 1 /c true
1 h cy 1; 3 o cy 1 1 1 /b {".sv":"timestamp"}; 4 r cy; 4 h cy 2
0 h bo 1; 0 h al 1; 1 c bo 1 1 /b; 1 l al 1 1 /b null; 4 l bo 1 2 /a/b {".sv":"timestamp"}; 5 h cy 1
1 h bo 1; 2 - bo 1 1 /c; 4 h cy 1; 6 b bo 1 2; 7 h bo 2; 8 c cy 1 1 /b; 10 h al 1; 13 o al 1 1 1 /c {"b":2}; 14 l bo 2 1 / {"b":2}
1 h cy 1; 2 h al 1; 4 o cy 1 1 1 / null; 7 h bo 1; 8 h bo 1
0 h al 1; 1 o al 1 1 1 /c {".sv":"timestamp"}; 3 h bo 1; 3 + al 1 2 /; 4 h cy 1; 4 o cy 1 1 1 /a 1; 6 - bo 1 1 /b; 7 o bo 1 2 1 /b 1; 10 o al 1 3 2 /c null
2 h al 1; 3 h cy 1; 5 o al 1 1 1 /b {"b":2}; 7 h bo 1; 7 l bo 1 1 /b {"b":2}; 7 l cy 1 1 /a/b true
3 h al 1; 6 h cy 1; 6 t cy 1 1 1 /c null true; 6 h bo 1; 7 c al 1 1 /a/b; 9 h cy 2
2 h al 1; 2 l al 1 1 /b true; 2 t al 1 2 1 / {"b":2} true; 2 h cy 1
1 h cy 1; 2 k; 3 + cy 1 1 /a/b; 3 h bo 1; 3 h al 1; 3 - cy 1 2 /a
0 h cy 1; 3 h cy 2; 6 h bo 1; 9 h al 1; 9 c cy 2 1 /a
2 h al 1; 4 h bo 1; 5 - al 1 1 /; 7 - bo 1 1 /c; 8 o al 1 2 1 /c 1; 10 + bo 1 2 /; 10 o bo 1 3 1 / null; 13 o al 1 3 2 / true
0 h cy 1; 0 h bo 1; 2 l bo 1 1 / {"b":2}; 2 h al 1; 5 l cy 1 1 /c {".sv":"timestamp"}; 7 + al 1 1 /a/b; 7 h cy 2; 10 h bo 2
1 h al 1; 4 h bo 1; 4 t al 1 1 1 /a/b 1 true; 6 h cy 1; 9 o bo 1 1 1 /a true; 11 o bo 1 1 1 /a true
3 h bo 1; 5 h bo 2; 7 h cy 1; 7 h al 1; 7 + cy 1 1 /; 9 - cy 1 2 /c; 12 r cy
1 h al 1; 2 o al 1 1 1 /a {".sv":"timestamp"}; 5 h cy 1; 5 h bo 1; 8 + bo 1 1 /a/b
0 h cy 1; 0 h al 1; 2 h al 1; 2 k; 3 b al 1 1; 3 h al 2; 4 x al 2; 4 h bo 1
0 h bo 1; 1 o bo 1 1 1 /b true; 4 o bo 1 1 1 /b true; 4 h cy 1; 5 h al 1; 6 o al 1 1 1 /a 1
2 h bo 1; 3 h bo 1; 4 h al 1
3 h bo 1; 6 h cy 1; 9 l bo 1 1 / 1; 9 x bo 1; 11 h al 1; 13 h bo 2
0 h bo 1; 3 h cy 1; 5 h al 1; 7 c bo 1 1 /c; 8 l cy 1 1 /c {"b":2}; 10 k; 10 l cy 1 2 /a null; 12 o al 1 1 1 /a null; 12 l bo 1 2 /b {".sv":"timestamp"}
2 h al 1; 5 h cy 1; 7 h bo 1
1 h al 1; 3 o al 1 1 1 /c true; 6 h cy 1; 7 h bo 1
3 h cy 1; 3 t cy 1 1 1 /a/b {"b":2} 1; 6 h al 1; 9 h bo 1
2 h al 1; 4 h bo 1; 5 - bo 1 1 /a/b; 8 h cy 1; 9 t bo 1 2 1 /c null 1; 11 o cy 1 1 1 /a {".sv":"timestamp"}; 12 h al 2
0 h bo 1; 1 h cy 1; 4 h al 1; 7 o al 1 1 1 /c {"b":2}; 10 t al 1 2 2 /b {"b":2} null; 10 c bo 1 1 /c; 13 c bo 1 1 /c; 14 o bo 1 2 1 /c null; 14 o cy 1 1 1 /a/b {".sv":"timestamp"}
3 h al 1; 3 h bo 1; 6 + bo 1 1 /a/b; 6 + bo 1 2 /c; 9 + bo 1 2 /c; 11 c al 1 1 /c
2 h cy 1; 2 o cy 1 1 1 /b true; 5 h bo 1
3 h al 1; 3 h bo 1; 6 o al 1 1 1 /a null; 7 h cy 1; 10 x al 1
1 h cy 1; 2 h bo 1; 4 l cy 1 1 / null
3 h al 1; 5 h al 2; 6 o al 2 1 1 /a null; 9 h bo 1; 9 h cy 1; 11 h cy 1; 11 l al 2 2 /b {".sv":"timestamp"}; 12 l al 2 2 /b {".sv":"timestamp"}; 15 k
1 h al 1; 1 h bo 1; 3 t bo 1 1 1 /c null null; 4 b al 1 1; 4 h al 2; 4 + bo 1 2 /a/b; 5 h cy 1; 7 b al 2 1; 8 h al 3
0 h cy 1; 1 h cy 1; 3 + cy 1 1 /a/b; 5 h bo 1; 8 h bo 1; 9 h cy 2; 10 o cy 2 1 1 / null; 12 h al 1; 13 l al 1 1 /b true
0 h bo 1; 3 h al 1; 4 r al; 6 + bo 1 1 /b; 6 h cy 1; 8 h al 2; 9 l al 2 1 /c {"b":2}; 12 o cy 1 1 1 /b {".sv":"timestamp"}
2 h al 1; 5 h cy 1; 8 h bo 1; 10 + cy 1 1 /a/b; 10 o bo 1 1 1 /a {".sv":"timestamp"}; 10 c bo 1 2 /; 12 l al 1 1 /a/b 1; 13 o cy 1 2 1 / true; 16 c bo 1 3 /a/b
1 h al 1; 3 h cy 1; 5 h cy 1
2 h bo 1; 2 h bo 1; 5 l bo 1 1 /a {"b":2}
1 h cy 1; 2 h bo 1; 3 h al 1; 3 l bo 1 1 /a true; 6 t cy 1 1 1 / null 1; 7 + bo 1 2 /a/b
3 h cy 1; 4 h al 1; 4 + cy 1 1 /b; 7 h bo 1
0 h cy 1; 0 h al 1; 3 h bo 1; 4 l bo 1 1 /c null; 6 r bo; 8 l cy 1 1 /b true
1 h bo 1; 2 h bo 1; 3 h al 1; 6 h al 1; 6 h cy 1; 9 r al; 9 l cy 1 1 / {"b":2}
3 h cy 1; 3 h al 1; 3 o cy 1 1 1 / 1; 6 + al 1 1 /b; 6 b al 1 2; 6 h al 2; 8 h bo 1; 11 - bo 1 1 /; 14 t cy 1 2 2 /b 1 null
2 h cy 1; 2 h bo 1; 3 l cy 1 1 /a 1; 3 h al 1; 4 + bo 1 1 /a; 7 + bo 1 1 /a; 8 o cy 1 2 1 /a {".sv":"timestamp"}; 10 k; 12 + bo 1 2 /
3 h al 1; 4 x al 1; 5 h cy 1; 5 h cy 1; 8 h bo 1; 11 h al 2; 11 o al 2 1 1 / {"b":2}; 12 l cy 1 1 /a/b {"b":2}; 13 + al 2 2 /b
3 h cy 1; 5 h bo 1; 6 c bo 1 1 /; 8 x bo 1
1 h bo 1; 1 h bo 1; 4 t bo 1 1 1 / 1 null
2 h cy 1; 5 h al 1; 5 l cy 1 1 /b {".sv":"timestamp"}
2 h bo 1; 2 h al 1; 5 o bo 1 1 1 /b {".sv":"timestamp"}; 5 k; 6 h cy 1; 9 l bo 1 2 /b true; 11 o al 1 1 1 /b true; 11 k
1 h cy 1; 2 k; 5 h bo 1
1 h bo 1; 2 h al 1; 5 h cy 1
0 h cy 1; 3 o cy 1 1 1 /a/b 1; 3 h al 1; 4 h al 1
2 h cy 1; 4 b cy 1 1; 6 h bo 1; 8 l bo 1 1 /c null; 11 h cy 2; 12 + bo 1 2 /a; 12 h bo 2; 14 x cy 2; 15 h cy 3
1 h bo 1; 4 h al 1; 6 l al 1 1 /b {"b":2}; 9 r bo; 10 h cy 1; 11 h cy 1; 14 o al 1 2 1 /c {"b":2}; 17 o al 1 3 2 / null
3 h al 1; 5 h bo 1; 5 + al 1 1 /; 5 l bo 1 1 /a/b 1; 8 + al 1 2 /; 8 r bo
3 h bo 1; 4 h al 1; 6 h al 2; 8 h cy 1; 9 h cy 2
0 h bo 1; 3 h cy 1; 4 h al 1; 6 - bo 1 1 /; 6 o bo 1 2 1 /c {".sv":"timestamp"}; 8 k
0 h bo 1; 1 h al 1; 2 l bo 1 1 /a true; 2 o al 1 1 1 /a true; 3 h cy 1
1 h bo 1; 3 - bo 1 1 /a; 4 h cy 1; 5 o bo 1 2 1 /c null; 7 h al 1; 9 t bo 1 3 1 /c 1 true; 9 - al 1 1 /a/b
2 h al 1; 5 h bo 1; 7 r bo; 10 k
1 h bo 1; 3 h al 1; 6 h cy 1; 9 r cy; 12 h cy 2
2 h cy 1; 5 h bo 1; 6 x cy 1; 7 h al 1; 8 h cy 2; 9 t bo 1 1 1 /a 1 null; 9 l bo 1 2 / null
3 h bo 1; 6 h bo 1; 6 l bo 1 1 /a/b null; 7 h cy 1; 8 + bo 1 2 /b; 10 o cy 1 1 1 /a true
2 h al 1; 5 h bo 1; 7 t bo 1 1 1 / 1 null; 9 l bo 1 2 / {"b":2}; 10 o bo 1 3 3 /a 1; 11 o al 1 1 1 /b null
1 h cy 1; 4 o cy 1 1 1 /a 1; 7 h bo 1
3 h bo 1; 5 h cy 1; 5 h al 1; 6 r bo; 9 r bo; 9 + al 1 1 /a/b; 11 b al 1 2; 14 h al 2
0 h bo 1; 1 h al 1; 4 h cy 1; 6 - cy 1 1 /a; 9 l al 1 1 /c {"b":2}; 9 l cy 1 2 / {"b":2}; 11 o al 1 2 1 / 1; 12 h bo 2; 15 + cy 1 3 /b
2 h bo 1; 3 h al 1; 5 o al 1 1 1 /a/b true; 7 o al 1 1 1 /a/b true; 8 + bo 1 1 /a/b; 8 h cy 1; 11 o al 1 2 1 /a/b true
2 h cy 1; 3 h al 1; 6 l cy 1 1 /a {"b":2}; 8 - cy 1 2 /a/b; 9 t al 1 1 1 /b true 1; 11 - cy 1 3 /a; 12 b cy 1 4; 13 h cy 2; 16 h bo 1
3 h al 1; 6 o al 1 1 1 /c 1; 9 o al 1 2 2 /a 1; 10 h cy 1; 10 + cy 1 1 /b; 12 h bo 1; 14 t bo 1 1 1 /a/b null 1; 17 c bo 1 2 /a; 18 - al 1 3 /
2 h bo 1; 2 h cy 1; 3 c cy 1 1 /; 5 x cy 1; 6 h al 1
2 h cy 1; 2 h al 1; 3 h bo 1; 6 o al 1 1 1 / true; 8 o cy 1 1 1 / null; 9 o al 1 2 2 /a/b true; 12 t bo 1 1 1 /a {"b":2} {"b":2}; 13 l cy 1 2 /a 1
1 h cy 1; 4 h al 1; 7 h cy 2; 8 - al 1 1 /; 10 k; 12 h al 2
3 h al 1; 6 h cy 1; 7 - al 1 1 /b; 9 t cy 1 1 1 /c null 1; 9 b al 1 2; 10 h bo 1; 13 h al 2; 14 o cy 1 2 3 /a 1; 17 k
2 h cy 1; 4 h bo 1; 7 h al 1; 8 o cy 1 1 1 /a/b {".sv":"timestamp"}; 10 + al 1 1 /c
3 h cy 1; 6 h bo 1; 9 + cy 1 1 /a/b; 11 x bo 1; 12 o cy 1 2 1 / 1; 15 h al 1; 16 r al; 17 o cy 1 3 2 /a null
3 h bo 1; 5 h cy 1; 7 o bo 1 1 1 /b {"b":2}; 9 t bo 1 2 2 /a/b 1 1; 10 h al 1; 12 h al 1; 15 - al 1 1 /
1 h al 1; 1 h cy 1; 2 h bo 1; 3 l cy 1 1 /a 1
0 h bo 1; 0 h al 1; 1 l al 1 1 /a {".sv":"timestamp"}; 1 c al 1 2 /a; 4 o bo 1 1 1 /c {".sv":"timestamp"}; 5 h cy 1
3 h bo 1; 5 h al 1; 5 h cy 1; 7 b al 1 1; 8 h al 2; 11 l al 2 1 / null; 11 r bo; 11 b al 2 2; 12 h al 3
1 h al 1; 1 h al 2; 1 h bo 1; 1 + al 2 1 /c; 4 h cy 1; 6 o cy 1 1 1 /a/b {".sv":"timestamp"}
0 h cy 1; 0 x cy 1; 2 h al 1; 3 h al 1; 3 h cy 2; 3 - al 1 1 /a/b; 5 x cy 2; 6 o al 1 2 1 /a/b {"b":2}
0 h cy 1; 2 h al 1; 2 h bo 1; 4 t al 1 1 1 /c 1 {"b":2}; 4 o cy 1 1 1 /a/b {"b":2}; 5 o al 1 2 2 / true; 5 h al 2; 5 o cy 1 2 2 /a null; 6 r al
1 h bo 1; 3 + bo 1 1 /c; 3 h cy 1; 6 h al 1; 9 t bo 1 2 1 / true {"b":2}; 11 t bo 1 2 1 / true {"b":2}
1 h bo 1; 4 o bo 1 1 1 /a null; 5 h cy 1; 6 - bo 1 2 /a; 7 l cy 1 1 /c 1
3 h cy 1; 4 o cy 1 1 1 /a {".sv":"timestamp"}; 5 c cy 1 2 /c; 8 h bo 1; 8 h al 1
2 h cy 1; 3 h al 1; 5 h bo 1; 5 l cy 1 1 / {"b":2}
2 h bo 1; 5 h al 1; 5 - al 1 1 /c; 5 + bo 1 1 /
1 h cy 1; 1 h cy 1; 1 h al 1; 3 h bo 1; 5 o cy 1 1 1 /c true; 8 l al 1 1 /b true; 10 t al 1 2 1 /c null {"b":2}; 11 t al 1 3 1 /a true {"b":2}; 13 c al 1 4 /b
2 h cy 1; 3 h al 1; 3 o cy 1 1 1 / 1; 5 o cy 1 1 1 / 1; 6 o cy 1 2 2 /c true; 9 h bo 1; 12 o bo 1 1 1 / {".sv":"timestamp"}; 14 + bo 1 2 /c
1 h bo 1; 4 h cy 1; 5 - cy 1 1 /; 5 - cy 1 1 /; 7 - cy 1 1 /; 9 c bo 1 1 /; 12 k; 15 k
3 h bo 1; 6 o bo 1 1 1 /a/b 1; 8 h cy 1; 11 o bo 1 2 2 /b true; 14 c bo 1 3 /c
0 h bo 1; 3 h al 1; 3 + bo 1 1 /; 6 h cy 1
2 h cy 1; 3 h al 1; 4 + cy 1 1 /
0 h bo 1; 2 h al 1; 5 x al 1; 8 h cy 1; 10 x cy 1; 10 h cy 2; 11 h al 2
3 h al 1; 3 h cy 1; 6 b al 1 1; 8 l cy 1 1 /c null
2 h cy 1; 5 h al 1; 6 h bo 1; 7 l al 1 1 /c true; 7 + al 1 2 /c; 9 o al 1 3 1 /b {"b":2}; 10 + al 1 4 /b
3 h bo 1; 5 o bo 1 1 1 / {"b":2}; 6 h cy 1; 7 o bo 1 2 2 /b true; 7 l cy 1 1 / null; 9 h al 1; 12 l al 1 1 /a true; 14 c bo 1 3 /a/b
0 h bo 1; 0 r bo; 3 h cy 1; 6 h al 1; 8 t cy 1 1 1 / null {"b":2}; 9 + al 1 1 /a/b; 9 l cy 1 2 /a/b {".sv":"timestamp"}
0 h al 1; 0 h bo 1; 3 o al 1 1 1 /b 1; 5 h cy 1
1 h bo 1; 4 h cy 1; 7 l bo 1 1 /a/b 1; 8 h al 1; 8 k
2 h cy 1; 5 h bo 1; 6 h al 1; 8 + bo 1 1 /b; 10 t al 1 1 1 /a 1 true; 12 x cy 1; 13 h cy 2; 15 + al 1 2 /a/b; 18 o bo 1 2 1 /a 1
3 h cy 1; 5 h al 1; 6 h bo 1
2 h al 1; 5 r al; 7 h bo 1; 8 h al 2; 9 l al 2 1 / true; 10 r al
3 h cy 1; 3 h al 1; 6 o al 1 1 1 / {"b":2}; 7 h bo 1; 8 t bo 1 1 1 /c true 1
1 h cy 1; 4 - cy 1 1 /b; 5 o cy 1 2 1 /a {".sv":"timestamp"}; 7 l cy 1 3 /a 1; 10 h bo 1
3 h cy 1; 4 h cy 1; 4 h al 1; 5 h bo 1; 7 r cy; 7 o bo 1 1 1 /a/b 1
2 h bo 1; 5 h cy 1; 5 t bo 1 1 1 /a 1 1; 8 h al 1; 8 o cy 1 1 1 /b true; 11 b cy 1 2
1 h al 1; 1 h cy 1; 1 h bo 1; 2 h bo 1; 3 h bo 1; 5 b cy 1 1; 6 o bo 1 1 1 /c null; 8 h cy 2; 10 l al 1 1 /c true
1 h al 1; 4 h al 2; 7 o al 2 1 1 /b {"b":2}; 9 h cy 1; 12 l cy 1 1 /a/b {".sv":"timestamp"}; 13 h bo 1; 14 + cy 1 2 /b
3 h cy 1; 6 b cy 1 1; 7 h cy 2; 7 h al 1; 10 h bo 1; 10 x al 1; 13 h cy 3
0 h bo 1; 1 o bo 1 1 1 / 1; 1 + bo 1 2 /a; 3 h al 1; 4 o bo 1 3 2 / {".sv":"timestamp"}; 5 t al 1 1 1 /b null {"b":2}; 8 o bo 1 4 3 /a true; 10 b bo 1 5; 12 h bo 2
3 h al 1; 6 h bo 1; 6 h cy 1; 7 o bo 1 1 1 / {".sv":"timestamp"}; 7 + cy 1 1 /a; 10 c bo 1 2 /c; 13 c bo 1 2 /c; 15 c bo 1 2 /c
2 h al 1; 3 h cy 1; 6 c al 1 1 /c; 9 b cy 1 1; 12 h bo 1; 14 b al 1 2
3 h al 1; 6 h bo 1; 6 h bo 1; 9 + bo 1 1 /; 11 h cy 1; 13 t cy 1 1 1 /b 1 1; 13 l al 1 1 /a {".sv":"timestamp"}; 13 l al 1 2 / null; 15 h bo 2
1 h cy 1; 3 h bo 1; 4 o bo 1 1 1 /b {".sv":"timestamp"}; 7 l cy 1 1 / true; 9 l bo 1 2 /c {".sv":"timestamp"}; 10 k
3 h al 1; 5 h cy 1; 5 h bo 1; 7 o cy 1 1 1 /b true; 8 x bo 1; 11 h bo 2; 14 l bo 2 1 /b 1; 14 h al 2; 17 - cy 1 2 /a
3 h bo 1; 3 + bo 1 1 /; 4 c bo 1 2 /c; 5 + bo 1 3 /a/b; 8 h al 1; 9 h cy 1
3 h al 1; 3 c al 1 1 /c; 6 h cy 1; 9 t cy 1 1 1 /c true {"b":2}; 11 t cy 1 2 1 /b null true
2 h al 1; 4 o al 1 1 1 /a/b {"b":2}; 6 h bo 1; 6 c bo 1 1 /b; 9 o al 1 2 2 / null; 12 o al 1 3 3 / {"b":2}; 15 o al 1 4 4 /a/b {"b":2}
0 h al 1; 2 h bo 1; 3 + al 1 1 /a; 4 l bo 1 1 /a 1; 5 h cy 1; 8 l cy 1 1 /b {"b":2}; 8 l bo 1 2 / {"b":2}
0 h cy 1; 3 c cy 1 1 /a/b; 3 h al 1; 3 h bo 1; 4 o al 1 1 1 /a/b 1; 5 t bo 1 1 1 / true true
2 h al 1; 4 h cy 1; 6 h bo 1; 9 r al; 12 c bo 1 1 /b; 12 l bo 1 2 /c null; 15 h al 2; 15 o al 2 1 1 /c 1
0 h cy 1; 1 c cy 1 1 /a/b; 4 h al 1; 4 h bo 1; 6 c cy 1 2 /; 6 + al 1 1 /; 9 b bo 1 1; 10 c al 1 2 /a/b
2 h bo 1; 2 h al 1; 2 h cy 1; 2 o cy 1 1 1 /c null; 4 x al 1
0 h cy 1; 3 h cy 2; 5 h al 1; 5 h al 1; 8 o cy 2 1 1 /a null; 8 l al 1 1 / null
3 h al 1; 4 h cy 1; 5 h bo 1; 5 l cy 1 1 /c null; 8 o cy 1 2 1 /c {"b":2}; 10 o al 1 1 1 /a/b null; 13 x cy 1; 14 o bo 1 1 1 /b {".sv":"timestamp"}; 16 t al 1 2 2 /a/b {"b":2} true
3 h bo 1; 6 h al 1; 9 h cy 1; 10 + bo 1 1 /a/b; 10 + al 1 1 /a/b; 10 o bo 1 2 1 /a/b true; 10 l cy 1 1 /b {".sv":"timestamp"}; 13 h bo 2; 14 c cy 1 2 /c
0 h bo 1; 2 h al 1; 4 h cy 1
1 h bo 1; 3 x bo 1; 5 h cy 1; 5 h al 1; 6 l al 1 1 /b true; 7 h bo 2; 10 o al 1 2 1 /c null; 12 o al 1 3 2 /c {".sv":"timestamp"}
3 h al 1; 3 l al 1 1 /a {"b":2}; 4 + al 1 2 /c; 5 l al 1 3 /c null
1 h cy 1; 2 x cy 1; 5 h bo 1
2 h cy 1; 3 h bo 1; 4 b cy 1 1; 4 h cy 2; 5 l cy 2 1 /b 1"#;
