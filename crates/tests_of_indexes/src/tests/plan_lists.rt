//! Calls of plans, a list a line, as `bench/plan_lists.py` prints them.

/// The lists.
pub(crate) const LISTS: &str = r#"p /u {"a":1,"b":2}; c /u/a; e {"u":{"a":9,"c":3}}
p /a {"b":1,"c":2}; c /a/b; e {"a":5}
p /a/b 1; c /a/b; e {"a":5}
256 p /p/% 1; p /q 1; u /p/7 2, /q 3; p /p/7 2; c /p/7; p /q 1; p /r 1; e null
255 p /p/% 1; u /a 1, /b 2; u /a 1, /p/9 2; c /a/b; u /a 1, /p 2; e null
256 p /p/% {"a":1}; c /p/3/x; c /p/3; c /p/4/a; c /p; e {"p":{"3":1}}
256 p /p/% 1; p / 2; c /p/3; e {"p":{"3":1}}
p /x {"a":1}; c /x/a; p /x 2; e {"x":1}
p /a null; c /a/b; c /a/b/c; c /a; e {"a":{"b":{"c":7}}}
p /a null; c /a/b; p /a/b/c 1; c /a/b; e {"a":{"b":{"c":7}}}
p /a 1; p /a/b 2; p /a/b/c 3; p /a 4; e null
p /a 1; p /a/b 2; c /a/b/c; u /a/b 3, /a/c 4; c /a/c; e {"a":{"b":{"c":7},"c":8}}
u /a 1, /b 2, /c 3; u /a/a 4, /b 5, /d 6; c /b; c /; e {"b":1}
p / {"a":{"b":1}}; c /a/b; p /a/b 2; c /a; e {"a":{"b":3}}
p /d/d/d null; u /a null, /d/a true, /d/c/b true; e 5
u /a/b {".sv":"timestamp"}, /b/b true, /c/a {".sv":"timestamp"}; p /d/d null; u /a/b true, /c/a {"d":1}, /d/c/d {"a":null}, /d/d/b {"d":-7}; c /a/d/b/b; p / -7; u /a/b "x", /a/c null, /c/d -7, /d {"b":null,"c":-7,"d":null}; c /c; p /b {"d":{".sv":"timestamp"}}; e {"a":{"a":false,"c":"t"},"b":{"c":null,"d":null},"d":false}
e false; p / "x"; c /a/c/b; e "t"; e {"a":"t","c":{"a":null,"b":5,"d":5}}
u /b {"a":-7,"c":-7,"d":1}, /d "x"; c /d/b; p / "x"; p /d/b/a/a {"a":"x","b":-7}; p /a/c {"d":"x"}; u /b "x", /c true, /d {"d":-7}; u /a/a {"b":1}, /d {"a":{".sv":"timestamp"},"b":{".sv":"timestamp"},"d":true}; c /c/c/d/c; p /a/a {"b":"x","c":true,"d":null}; p /d/a null; e {"a":{"a":5,"b":null,"d":false},"b":{"a":5,"b":"t","c":5,"d":"t"},"c":{"c":5,"d":5},"d":{"c":null,"d":"t"}}
p /a/b {"a":1,"c":null}; c /c/b/b/b; u /a/c/b true, /b/a "x", /b/c/a {"a":"x","b":true,"d":true}, /c {"b":"x","c":{".sv":"timestamp"},"d":1}; e {"a":"t","b":{"b":null,"c":"t","d":false}}
u /a {".sv":"timestamp"}, /b/d {"b":{".sv":"timestamp"}}, /c/b "x"; e {"a":{"a":null,"b":false,"d":5},"b":null}; p / 1; e null; p /d true; p /d/b true; e null
p / -7; p /a/b/d/a {"b":-7,"c":-7,"d":1}; p /c/d/b/c null; c /d/b/c/a; e {"a":{"a":5,"b":"t","c":"t","d":"t"},"c":{"b":false,"c":false,"d":false},"d":null}; c /d; c /d/c/b/d; c /b/c/a/d; u /a/d/b "x", /b/c {"c":{".sv":"timestamp"}}, /c/a {"b":true,"d":null}, /d/c/b true; e {"a":{"a":5,"c":"t"},"b":{"b":null},"d":{"a":"t"}}
c /d/b/d; c /c/b/c/b; c /; c /d/c/d/b; c /a; c /d; u /b/a {".sv":"timestamp"}, /b/b/b null, /b/c/d {"a":true,"d":"x"}, /d/c/c {"c":"x"}; e "t"; c /a/b; p /b/d/d 1; e 5
u /a true, /b/d true, /c/c/d -7; e {"c":null,"d":null}; u /a true, /b/a {"a":{".sv":"timestamp"},"b":-7}, /c/a true; p /c/b {"c":true}; u /a {"d":null}, /b/d/a "x", /c/a/c -7; p /a/b true; c /d/a/c; p /a/c {"a":{".sv":"timestamp"},"b":{".sv":"timestamp"},"c":true}; e "t"
u /b 1, /c "x", /d/a/c true, /d/d "x"; p /c/d {"a":-7,"d":null}; p /c/a -7; u /a/b/a true, /c/c/c -7, /d/a 1, /d/c/b {"a":1,"d":true}; e null
c /; p / "x"; c /; c /b; u /a/c -7, /c/b 1, /d {".sv":"timestamp"}; p /d/b {"b":true,"c":"x"}; c /d/a/c/d; p /a/a "x"; c /c/d; e {"c":"t","d":{"a":5,"b":5,"c":null}}
p /d/c/a null; c /c/d/c; c /d/c; p / 1; p / -7; p /c true; p /c/d/c/d true; p /d/d/a {"a":1,"b":null,"c":1,"d":null}; p /a null; p / {".sv":"timestamp"}; e {"b":{"a":false,"d":5},"d":{"b":false,"d":false}}
c /b; u /a true, /b/c/d {"b":"x","c":{".sv":"timestamp"},"d":1}, /c/c/a {"a":"x","d":"x"}, /c/d true; p /c/c/d {"a":true,"b":1,"d":"x"}; c /b/a/c/b; c /c; c /c/a/b; c /b/a; e null
p /c null; c /b/a; e "t"
p /d/a/a/c null; p /a null; c /; p /c -7; p /d {".sv":"timestamp"}; c /a; e "t"
255 p /a/% {".sv":"timestamp"}; c /d/a; c /d/d/d/c; c /b/a; e null
c /a/c; u /a/c 1, /c {"d":-7}; p /b/b true; c /a/b/c; e {"d":{"b":null,"c":false,"d":false}}
p /d/a/a/d {".sv":"timestamp"}; c /; c /; u /a {".sv":"timestamp"}, /b/b {".sv":"timestamp"}, /c {".sv":"timestamp"}; c /; c /d/c/c; e "t"
c /b/a/c/a; c /d; c /; e {"b":5,"c":{"a":"t","d":false},"d":5}; e {"a":{"a":"t","c":false,"d":null},"d":{"a":"t","c":null}}
c /d; e {"a":{"a":5,"b":5,"c":5,"d":null},"b":null}; u /a/a null, /d -7; u /b/d/d -7, /c/d/d -7, /d 1; c /a/c/c/b; p /c/d {"a":1,"d":null}; c /b/d/b/b; e {"a":{"b":null,"c":false,"d":5},"b":{"a":null,"d":5}}
p /c -7; p /b/d {"c":-7}; p / {"b":1}; e {"c":{"a":null,"d":false}}
p / 1; e {"b":{"a":5,"d":false}}; p /d/a 1; p / null; u /a 1, /b true, /c/b 1; p /a/c/a/d null; u /a/d/a {"a":{".sv":"timestamp"},"b":1}, /c/d null, /d -7; p /a/a/a/a {"a":-7,"c":-7}; u /a/b/c "x", /a/d/c -7, /b/a/d -7, /b/b null; c /c; e false
c /; p /c 1; p /b/b {"b":"x","c":1}; p /c/c 1; p /a/a true; c /a/d/b/b; p /b/a/c/d {"a":true,"b":"x","d":{".sv":"timestamp"}}; p /a/b/c null; p / 1; p /b/b/d/c {"b":{".sv":"timestamp"},"c":"x","d":{".sv":"timestamp"}}; e false
p / {".sv":"timestamp"}; c /d/c/c/a; c /d; e false; u /a true, /c/c/c 1, /c/d 1, /d/d/b -7; c /d; e null
c /; p /a/c/d/a -7; u /a/b/c null, /a/c/a {".sv":"timestamp"}, /b -7, /c/b "x"; e null; e {"a":{"a":5,"b":false,"c":5},"b":"t","c":"t","d":{"a":"t","b":"t","d":"t"}}; e {"d":null}; e null
c /d/c; c /; p /b/b/c/a null; p / {".sv":"timestamp"}; c /; p / -7; c /a/b/d/b; p /c/b/b/b null; p /d/a/c/c null; u /a/a 1, /a/b/b {"c":null,"d":1}, /b null; e {"a":null,"d":{"a":false}}
p /d/d/a 1; c /c/b/a; p /c/c/c -7; p /c/c true; u /b/b {"b":-7,"d":true}, /b/c true, /c {"a":true}; p /d null; e 5
u /a/b/d -7, /b/a/b true, /c {"b":-7,"d":null}; e {"a":{"a":null,"b":false,"d":false},"b":5,"c":{"a":5,"b":5,"c":false,"d":null}}; p /b {"b":-7,"c":{".sv":"timestamp"}}; c /; p /a/a/c -7; p / {".sv":"timestamp"}; e "t"
p /d/a {"c":1}; p /c/c true; e {"b":{"b":"t"},"c":{"a":5,"b":"t","c":"t","d":5},"d":{"c":5,"d":null}}; p /d/d/c/b true; p /d/b/c {"c":{".sv":"timestamp"}}; u /b/b 1, /c true, /d {"a":"x","b":{".sv":"timestamp"},"c":1}; e {"a":"t","b":"t","c":false,"d":{"a":"t","b":5,"c":5}}; c /a/d; p /b/d/d/d 1; p / {"a":true,"b":true,"c":"x","d":1}; e false
e 5; c /b/a; u /a/b/d "x", /a/d/a {"a":true}, /d/c -7; p /b {"b":true,"d":{".sv":"timestamp"}}; p / -7; e {"b":{"b":"t","d":"t"},"c":{"a":false,"b":null,"c":"t"},"d":"t"}
u /b null, /c/d null, /d/b/b -7; c /b/c/b; p /b/a/d -7; c /b/b/a/c; p /a/d {"a":true,"c":{".sv":"timestamp"}}; p /b/d "x"; e "t"
p /b 1; p /b/d/b/c {".sv":"timestamp"}; c /b/a; p /b {"a":true,"b":{".sv":"timestamp"},"c":"x","d":1}; e {"b":null,"c":{"a":5,"c":null},"d":{"a":null}}
p /d/c/b {".sv":"timestamp"}; p /d/d/c 1; p /b {"a":true,"b":"x","c":null,"d":"x"}; p /c/d/b {".sv":"timestamp"}; c /d/c; u /a 1, /c -7, /d {"a":true,"c":"x","d":true}; u /a {"c":-7,"d":1}, /c/d {"b":"x","c":1,"d":true}, /d/b/d "x"; e {"a":null,"b":false,"c":"t"}
u /b/d null, /c/b true, /d/d null; c /c/c; p /b/d/a/d "x"; e {"a":5,"d":{"a":"t","c":null,"d":null}}; p /d/a "x"; p / {"a":null,"c":"x","d":1}; p /b null; u /b/a null, /c/a/a {"b":{".sv":"timestamp"}}, /c/d true, /d/c/b -7; e {"a":{"a":null,"b":false,"c":5,"d":5},"d":{"d":"t"}}
e 5; c /a/d/d; u /a/c/d {"a":"x","b":true,"c":{".sv":"timestamp"}}, /b "x", /c "x", /d null; c /d; p /d/d 1; e {"a":{"a":null,"b":5,"c":"t"},"c":null}
p / true; p /b/d/d/b true; e false
c /a/c/a; p / {"c":null}; c /b/c; c /c; e 5
p /c/c {".sv":"timestamp"}; u /a "x", /b {"a":{".sv":"timestamp"},"b":null,"c":true}, /d/b -7; c /d/c; p / null; e {"b":{"b":null,"c":5,"d":"t"},"d":{"a":null}}
p /c/a/b null; p /b {".sv":"timestamp"}; c /; p / true; e {"a":5,"b":{"a":null,"b":"t","c":null,"d":"t"},"c":{"b":false,"c":5},"d":{"b":null,"d":"t"}}
c /d/a/a/b; u /a/c/b {".sv":"timestamp"}, /b 1, /d/c {"a":1,"b":true,"d":null}; c /; c /d/b/b; u /a/d/b true, /b {"a":true,"d":"x"}, /c/d/b 1, /d/d "x"; c /a/a; p /d/a/d/a 1; e {"a":null,"b":{"c":5,"d":"t"}}
p /c/a/c/c {"a":{".sv":"timestamp"},"c":-7}; p /d/d {".sv":"timestamp"}; u /a/a/a {".sv":"timestamp"}, /a/c true, /a/d/a 1, /b/d 1; p / {"b":1,"c":true,"d":-7}; p /b/a/d/b -7; c /b/a/d; p /d/c/d/c null; e {"c":{"b":5,"c":false},"d":{"c":"t","d":5}}
p /b/c/c 1; c /; e {"a":{"a":false,"b":false,"d":null},"b":5,"c":{"a":"t","d":null},"d":"t"}
c /c/b/b; c /c/d; p /c/b/b/a true; e null; p /d -7; c /; u /b -7, /c -7, /d null; e {"a":{"a":"t","b":false,"c":"t"},"d":false}
c /b/a; c /a/c/c; e null
p / -7; e false; c /; u /a/a 1, /b/d -7, /d "x"; p /d "x"; c /c/a/d/d; e {"a":{"b":5,"c":null},"c":{"d":"t"},"d":null}; c /b/d/b; e null
c /; c /a/a/c/d; e {"a":{"b":5,"c":false},"c":false}
c /a/a; e "t"; p / null; c /d/d; p /c 1; u /a/c/d "x", /b/c/a {"a":"x","b":{".sv":"timestamp"},"d":1}, /c/b -7, /d "x"; p /a/c -7; p /b 1; p /a/d 1; p /a/c/a {"a":1,"b":true}; e 5
c /c/c; u /a -7, /b 1, /c {"c":1,"d":null}; e {"a":"t","d":null}; e null; p /a/b/b/d true; p / {"a":"x","b":true,"d":null}; e null
e "t"; p /c "x"; p /d -7; p / "x"; p /c/b {"b":1,"c":{".sv":"timestamp"},"d":{".sv":"timestamp"}}; e false
p /b/c/a/c {"d":null}; p /c/d/b/a {"a":true,"b":{".sv":"timestamp"},"c":{".sv":"timestamp"}}; p /c/b/a {"a":"x","d":true}; e {"a":{"a":5,"b":null,"c":false},"b":false}; p /b/c/a {"a":null,"b":-7}; p /a/d {"a":1,"b":{".sv":"timestamp"},"c":null}; p /c/a/c {"b":{".sv":"timestamp"}}; e {"b":{"a":null,"b":5,"c":false},"c":{"b":"t"},"d":{"b":"t"}}
p /b/b null; p /b/c {"b":1,"c":-7,"d":-7}; p / {".sv":"timestamp"}; u /b/c {"a":-7,"b":true,"c":-7,"d":-7}, /c/b {".sv":"timestamp"}, /c/c true; c /d/c/d; e false
c /; e {"a":{"a":false,"b":false,"c":5,"d":5},"c":{"a":null,"c":false}}; p /b/a/b 1; p /a/a/c/c 1; p /b/b {"a":true,"b":1,"c":1}; e {"a":false,"b":{"a":5,"b":5,"c":5},"d":{"a":"t","c":"t","d":false}}
e 5; e {"a":false,"b":{"a":false,"b":5,"c":null},"d":false}; u /b/c/a null, /b/d true, /c/b/b {".sv":"timestamp"}, /d true; c /b/a/c; c /b/d/a/d; p /a {"a":true,"d":true}; e {"b":false,"c":{"b":null},"d":null}; e false; c /d; e {"a":{"b":null,"d":false},"b":{"a":false,"c":5,"d":"t"},"d":{"c":5}}
p /a/a/c/a {".sv":"timestamp"}; p /a/d/b/a {".sv":"timestamp"}; e {"c":false,"d":false}; p /b/c {".sv":"timestamp"}; p /d/c/b null; e {"a":5,"c":"t"}
e 5; c /; p /c/c/d {"a":{".sv":"timestamp"},"b":1,"c":"x","d":-7}; p /d 1; e "t"; e {"a":5,"b":5,"d":"t"}
c /; p / -7; p /a {"a":{".sv":"timestamp"},"b":true,"c":1,"d":-7}; e "t"
p /a/c {"b":null,"c":true,"d":{".sv":"timestamp"}}; p /d/b/c {"a":null}; p /b/b/c/d {".sv":"timestamp"}; p /c/b/b/a 1; c /a/d/d; p / -7; p /c/d "x"; c /d; e {"b":{"a":5,"c":5,"d":null},"c":{"a":null,"b":null},"d":{"a":false,"b":5,"c":"t","d":false}}
p /b/d/d/a -7; u /a null, /b/b null, /d/d/b {"a":"x","b":-7,"c":{".sv":"timestamp"},"d":-7}; c /c/a/a; c /a/c/c; e false; p /d/c/a {".sv":"timestamp"}; c /; p /a 1; u /b {"a":-7,"d":-7}, /d/d true; e false; e {"b":{"a":"t","b":false},"d":null}
p /a/b/d "x"; p / {".sv":"timestamp"}; p /b/d/c/c null; c /c/d/c; c /b/d; u /a 1, /c/d -7, /d/c {"a":{".sv":"timestamp"},"c":null}; p /a {"a":{".sv":"timestamp"},"b":1,"c":true,"d":-7}; e {"a":"t","c":5,"d":false}; e null
c /a/c; c /; p /b/c/c/b "x"; p / null; p /d true; p / -7; e {"b":{"c":false,"d":null},"d":"t"}
u /a/d/d -7, /c/b/a null, /c/d true, /d null; p /a/c null; c /c; p /c 1; c /a/d; u /b null, /d/b/b {"a":"x","b":"x","d":{".sv":"timestamp"}}, /d/d/c {".sv":"timestamp"}; p /d/b 1; e {"b":false,"c":false}
c /c; u /a 1, /d/c/b null; p /c/c/c {"b":null,"c":true,"d":-7}; u /a "x", /b/b/a {"a":1,"b":null,"c":null}, /b/d/a {"a":null,"b":{".sv":"timestamp"}}; u /a {"c":1}, /b 1, /c {"a":-7,"b":-7}; p /a/c/a/b {".sv":"timestamp"}; e null
u /a/c/d {".sv":"timestamp"}, /b/b/b {"a":1,"b":null,"d":null}, /c/b {"a":true,"b":true}, /d {".sv":"timestamp"}; p / {"b":"x","d":true}; c /a/a; c /b; e false; p /c/b {".sv":"timestamp"}; c /c; e {"d":false}
c /; e {"a":{"a":5,"c":"t"},"b":false}; p /c/c null; e {"a":{"c":null,"d":false},"c":{"a":5,"b":false,"c":"t","d":null}}; p /c/b/a/c {"c":true,"d":-7}; u /c null, /d true; c /a/c/a; p /a/b 1; e {"a":{"a":5,"b":false,"d":false},"b":5,"d":{"a":null,"b":null}}
u /a/a -7, /b true, /c/c true, /c/d/b "x"; c /b; c /c/d; e {"a":{"a":false,"b":5},"c":"t"}; c /c/b/d/d; p /a true; p /d/d null; p /b/c/b {"a":null,"d":{".sv":"timestamp"}}; u /a {"a":1,"b":"x","c":-7,"d":true}, /b/d true, /c/d {".sv":"timestamp"}, /d null; c /; e 5
p /a/c -7; p /c/c/c {"a":true}; e false; c /c; p /b/c/c {"c":null}; c /d/d/c; p / 1; p / {".sv":"timestamp"}; p /c/b/b {"a":true,"b":true,"d":-7}; c /; e 5
c /a/d/b; e {"b":null,"d":{"b":false,"c":false,"d":false}}; e false
p /d/d/a/c {"b":{".sv":"timestamp"},"c":1}; p /c/a {"a":null,"b":"x","c":{".sv":"timestamp"},"d":null}; p /d/d/c/b {"a":"x"}; u /b/a/b -7, /b/d null, /d/a -7, /d/c null; p /d "x"; p / {".sv":"timestamp"}; e null; c /d/c/d; e {"a":null,"b":{"c":5,"d":null},"c":{"a":"t","b":null,"c":false,"d":false},"d":null}; p /b {"a":-7,"c":"x"}; e {"b":null}
p /b/d/b/c 1; p /a/b {"a":null,"b":{".sv":"timestamp"},"c":true,"d":"x"}; c /; c /b/b/b/a; p /d null; p /c/c/b/a {"a":true,"b":-7}; e 5
p / -7; u /a true, /b/a "x", /c true; p / {"a":{".sv":"timestamp"},"b":-7,"c":1}; p /a/b {"a":{".sv":"timestamp"},"b":-7,"c":"x"}; p /c {".sv":"timestamp"}; p / {".sv":"timestamp"}; p /b/b/a true; e {"a":{"c":false},"b":"t","c":false}
c /b/a; e {"a":{"a":"t","b":"t","c":null},"b":{"d":5},"c":5,"d":{"a":false,"b":5,"c":null}}; p /d "x"; e {"a":5,"c":{"b":null,"c":"t","d":false}}
c /; p /d/a/d {"b":-7}; c /c/c; e {"a":false,"d":{"a":5}}
p /c/c/d/b true; p /b/c/c {"c":-7,"d":true}; c /a/c; p /c -7; p / {"b":{".sv":"timestamp"},"c":-7,"d":"x"}; p /c/c/a 1; p /c/d -7; u /a "x", /b/b -7, /c/c/b true; e null; e {"b":{"a":null,"b":"t","c":false,"d":null},"c":{"a":null,"b":5,"d":"t"},"d":{"b":null,"d":"t"}}
c /a; e null; p /a/d/c true; e {"c":null,"d":false}; p /a/a/b {"d":null}; p /c/b/a {"b":{".sv":"timestamp"},"d":1}; p /c/d/c true; e null; p /b/b/c/d null; e {"c":5,"d":{"a":null,"b":"t","c":"t"}}
c /; c /b/b/d; p / {"c":1}; p /b/d/d/a {"c":null,"d":"x"}; p /b/b {"c":{".sv":"timestamp"},"d":true}; p /c/c "x"; e 5
p /c/b/c true; c /d; u /a/a null, /b null, /c/a/b "x", /d/d true; u /b/b/a null, /b/d {"a":1,"b":-7}, /c/c true, /d/c/a null; p /b {"a":{".sv":"timestamp"}}; e false
p /c/b {".sv":"timestamp"}; p /b/a/b/b 1; c /d/c/a; p /c {"b":"x","d":{".sv":"timestamp"}}; u /a 1, /b/d/d -7, /d "x"; e {"b":5,"d":{"b":false,"d":null}}
c /a; p /b/c/b/b "x"; p /d/b {".sv":"timestamp"}; p /d/c/c/d {".sv":"timestamp"}; p /d {"b":{".sv":"timestamp"},"c":-7,"d":"x"}; u /a/b true, /b/b/b null, /c/d 1, /d/a {"b":"x"}; c /d; e "t"
e {"a":{"a":"t","b":null,"d":false}}; p /a {"a":null,"b":true,"d":true}; e "t"
p /c/c {"a":true}; c /d/a; p /c/a {"c":-7,"d":1}; c /; u /b/b 1, /b/d true, /d 1; c /; u /c 1, /d/b/b true, /d/c {".sv":"timestamp"}; p /b/a -7; e {"a":{"a":5,"d":5},"b":{"a":null,"b":5,"c":5,"d":false}}
c /b/a/b; p / -7; e {"b":{"a":false,"b":"t","c":5},"c":{"a":null,"b":false,"c":false},"d":{"a":5,"b":false,"c":null,"d":false}}; u /b -7, /c true, /d/c {"b":1,"c":-7,"d":null}; e {"a":{"c":false,"d":"t"},"c":{"a":null,"b":5,"c":"t","d":5},"d":{"c":false}}
p /a/c/a/c {"a":null,"b":1,"d":true}; c /b/b/d/b; c /; p /a/d null; p /b/d {"b":-7}; p /a 1; e 5; p / null; p /c/d/a/a "x"; e null
p / {"b":true,"c":{".sv":"timestamp"},"d":1}; u /a/a "x", /b/c/a "x", /c/d/c 1, /d/a -7; e {"b":{"a":5,"b":"t"},"c":{"a":null,"b":5,"c":"t"},"d":false}; p /d true; c /d/a/d/b; p /c/b/b/d null; e false; p /d/c/b/b "x"; e 5
c /c/c/b; p / "x"; u /a/d 1, /b/a/c {"c":"x"}, /d/b/a -7; c /b/d/b; u /a/d {"a":true,"c":true}, /d/a {".sv":"timestamp"}; p / {"b":null,"d":1}; e {"a":{"d":false},"c":null}
p /b/b/d/c null; u /b/d {"a":1}, /c {".sv":"timestamp"}; c /d/a; p /a/c {"a":1,"d":1}; p /d/a/d true; p /b/a/d/d null; e {"a":{"c":5,"d":null},"c":false,"d":5}; e "t"
p /c/b/b/c 1; c /a; u /a/d {".sv":"timestamp"}, /b {".sv":"timestamp"}, /d -7; p /c/a true; e "t"
p / {".sv":"timestamp"}; u /a {"a":1,"b":true,"d":-7}, /b/d/a 1, /c/a/c 1; e null; c /b/b/b; c /; p /b/a/b/a {".sv":"timestamp"}; e {"a":{"a":"t","b":false,"c":5,"d":false},"b":{"a":"t","b":null,"c":5}}
u /b "x"; c /b/c/c; c /b/c/b/a; u /b/d/c 1, /c true; c /d/b/d; p /b "x"; c /a/a; c /a/b/c; p /b/d/b/d {"b":{".sv":"timestamp"},"c":-7,"d":1}; e {"a":{"b":"t"},"c":5}
c /c/a/c/d; u /a true, /b 1, /d/b true, /d/d/a {".sv":"timestamp"}; p /d/a/a/b -7; c /a/b; p / 1; e 5
u /a true, /b null, /c/b {"b":{".sv":"timestamp"},"d":"x"}; u /a/c "x", /b/c true, /c/b/a {"a":true,"d":-7}, /c/d/d -7; c /b/c; c /b; u /a/c/a null, /a/d/b 1, /b/b {"a":null,"b":1,"c":{".sv":"timestamp"}}, /d/c/a "x"; e null
c /; u /a {"a":true,"b":true,"c":{".sv":"timestamp"},"d":null}, /b "x", /d/c/c "x"; p /b/d/b "x"; c /b/b/a; c /d; u /a/b/a null, /b -7, /d {"a":-7}; c /c/d/c/b; c /b/a/a/d; e {"a":{"a":5,"b":false},"b":false,"c":"t","d":null}
p /d/c/a/a -7; p /d/b true; p /a/a null; c /a/d/c; u /b/b {".sv":"timestamp"}, /b/d/d {"a":true,"c":-7}, /d/c/d null; e {"a":{"a":5,"d":5},"c":{"c":5,"d":"t"},"d":{"b":null,"c":5}}; c /d/d/b/c; p /d "x"; e null
p /a/c/a/a null; c /c/a/a; u /c 1, /d true; u /a/d/d -7, /b {".sv":"timestamp"}, /d null; p /c null; e "t"
c /; c /; p /b/b/c true; c /b; p / 1; e 5
p /b/a "x"; p / null; c /; p /a/d 1; e false
p /c/b {"b":-7,"d":"x"}; u /a/a -7, /c/b null, /c/d true, /d -7; u /a/d {"a":-7,"c":-7}, /b/a {".sv":"timestamp"}, /c/c/d {"c":1,"d":null}, /d/a/a 1; u /a/d/a {"a":"x","b":"x","d":-7}, /b null, /d {".sv":"timestamp"}; e false; p /b/d/c null; e {"a":null,"c":{"a":5,"c":null,"d":null}}; p /b true; c /a/a/c/b; p /c/c/b/a "x"; e {"a":"t","c":{"a":"t","c":null,"d":5}}
c /; u /a/a -7, /b/d 1, /c/c true; e {"b":{"b":5,"d":null}}; e null; p /a/d true; e 5; u /b {".sv":"timestamp"}, /d/d {"a":{".sv":"timestamp"},"b":null}; u /a/b/c "x", /b true, /c/a {".sv":"timestamp"}, /c/c {".sv":"timestamp"}; u /a/c 1, /a/d -7, /b -7; p /b/b/a 1; e 5
p /d/d/c -7; u /a/a/d {".sv":"timestamp"}, /b {"a":"x","c":"x","d":true}, /c/a/d "x", /d/b -7; c /b/d/c; p /c/a/c/c -7; c /b; c /a/c/a; c /; p / true; u /b {"c":true}, /d/a true; c /c/b; e {"a":{"a":false,"d":null},"c":null,"d":false}
p /d/a/d/b {"a":{".sv":"timestamp"},"c":-7,"d":"x"}; p /c/b/b/a {"d":null}; u /a {".sv":"timestamp"}, /b {".sv":"timestamp"}, /d/a/a "x"; c /; u /a 1, /b/b null; p /c/b {"b":null,"c":"x","d":null}; c /; p / "x"; c /b/a/c; c /c/b/c/c; e {"a":false,"b":{"b":false,"d":null}}
e false; p /d/c 1; p / {".sv":"timestamp"}; u /a/d/c -7, /c/c/a null, /d true; p /a/b null; p /c/c/b 1; c /; c /a; p /d/c {"a":"x","b":1,"d":"x"}; e "t"
c /c/b; c /b; c /a/b; e {"b":false,"d":"t"}
c /c/a; e {"a":false,"d":null}; e {"b":{"a":5,"c":null,"d":"t"},"c":5}
u /a "x", /b/a/c -7, /d 1; c /; u /a/d {"a":"x","b":null,"c":true,"d":null}, /b {".sv":"timestamp"}, /c/b/a "x", /c/c {"d":{".sv":"timestamp"}}; c /c/a; p /b/d/a "x"; c /; e null
u /a true, /d/a/b 1, /d/b/a {".sv":"timestamp"}, /d/c/b {".sv":"timestamp"}; e "t"
p /a/b {"b":-7}; p /b -7; p / "x"; p /d/a/a/d -7; p /d/d/a {".sv":"timestamp"}; c /; p /d/a/a {".sv":"timestamp"}; u /a/a true, /a/d/b {".sv":"timestamp"}, /b {".sv":"timestamp"}, /c/d {"d":true}; e {"a":5,"b":{"b":null,"c":false,"d":"t"},"c":null,"d":false}
p /b/b "x"; u /a/b {"a":1,"b":{".sv":"timestamp"}}, /b 1, /d/a/b {"b":{".sv":"timestamp"},"d":{".sv":"timestamp"}}; c /b/c/b; c /c/c/d; p /a 1; u /a/a/a {"b":null,"c":{".sv":"timestamp"},"d":true}, /a/d/c 1, /a/d/d 1, /b/a {"c":null,"d":-7}; e {"a":{"c":5,"d":null},"b":{"b":"t"},"c":{"a":"t","b":null,"d":5},"d":5}
e null; p /a/b/a/b {"a":{".sv":"timestamp"},"b":1,"c":true}; p /b/a/d true; p /c/b true; c /; e {"c":{"d":"t"},"d":{"a":"t","c":5,"d":"t"}}; c /; e {"a":{"c":"t","d":false},"b":null,"d":{"b":"t","d":false}}
p /d/a/d {"c":{".sv":"timestamp"},"d":true}; c /; c /a/c; p /a/b/c null; p /b/b/c/b {".sv":"timestamp"}; p /a/a/c/a {"a":{".sv":"timestamp"},"b":null,"d":"x"}; e {"a":5,"b":{"a":"t","b":null,"c":5},"d":{"a":false,"c":null,"d":false}}; p / {"a":null,"b":1,"c":null,"d":-7}; c /; e "t"
p /b/d/a/d null; p /c/d/a -7; p / {"a":null,"b":{".sv":"timestamp"},"c":"x"}; e "t"
p /d null; p /a/b/c "x"; c /b; c /a/d/a; e {"b":{"a":5,"b":5},"c":null}; p /d/b/c/a 1; p /b/a/d true; u /a/a/b null, /b/b 1, /b/d -7, /d/a -7; e 5
p /c true; e {"b":"t","d":"t"}
p / 1; e "t"
c /d/b; p /a/b "x"; p /d/b/a {".sv":"timestamp"}; p /d -7; p /d {"a":{".sv":"timestamp"},"b":"x","d":"x"}; u /a -7, /b/b {".sv":"timestamp"}, /c {"a":true,"b":"x","d":-7}; c /d/c/c/a; u /b/b {"c":1}, /b/d/c {"c":1,"d":-7}, /d 1; p / {"a":true,"b":-7,"c":true,"d":"x"}; p /d/d {".sv":"timestamp"}; e {"b":null,"c":{"a":"t","b":5,"d":false},"d":5}
c /d; c /b; p /c/b/d/d {".sv":"timestamp"}; e {"a":{"a":null},"b":5,"c":5,"d":"t"}
p /d 1; e false
c /a/c/a; c /; e {"a":5,"b":{"c":null},"c":{"b":"t","d":5}}; c /c; c /c/a; p / null; e null
e {"a":false,"b":{"a":false,"b":"t","d":5},"c":{"b":"t"},"d":{"a":5,"b":5}}; c /c/b/c/c; p /c "x"; e {"a":{"a":false,"d":false},"b":"t","c":{"a":5,"b":false,"c":5},"d":{"a":null,"b":"t","d":false}}
p /d/a/b true; e "t"
p /b/b/b {"a":-7,"b":true}; c /b/b; e "t"; u /a/a/b {"b":-7}, /a/c 1, /b/a 1, /d/d/a {".sv":"timestamp"}; c /; p /c/a/c/b {".sv":"timestamp"}; p / null; e false
c /c/d/a; u /c 1, /d/a null, /d/b null; u /b -7, /c/a true, /c/b/a "x"; u /b/c/b {"b":-7}, /c/a {".sv":"timestamp"}, /c/b/b "x", /d {"a":{".sv":"timestamp"},"c":null,"d":1}; p /a/a -7; c /d; e "t"; p /c -7; u /b/c/d {"a":"x"}, /d {"a":{".sv":"timestamp"},"b":{".sv":"timestamp"},"c":{".sv":"timestamp"},"d":-7}; e null
p / 1; p /b/d null; p /d/a true; p / true; p /c/b/d/d {"d":true}; p /b/c -7; e {"a":{"b":5,"c":null,"d":5},"b":{"a":5,"b":false,"c":null,"d":false},"c":5,"d":{"a":"t","d":false}}
e {"c":null,"d":{"b":null,"c":null,"d":5}}; e "t"
c /; u /a {"a":true}, /b true, /c/a/b {"b":-7,"c":{".sv":"timestamp"},"d":-7}; c /d/b/c; e {"a":{"a":"t","b":5,"c":5,"d":false},"b":null,"c":false}
u /b/a 1, /b/c/c -7, /c/d {".sv":"timestamp"}, /d/b "x"; c /; e {"b":5,"c":5,"d":{"a":5,"c":5,"d":5}}; u /b/b 1, /c/a null, /d null; p /b/a/a {"a":true,"d":{".sv":"timestamp"}}; e {"b":{"a":"t","b":"t","c":false,"d":"t"},"c":{"b":5,"c":false}}
p /b/d/a/d null; p /a/a/c null; p /b {"c":true,"d":null}; p /a {"a":null,"b":1,"d":"x"}; p /c 1; e {"a":{"a":false,"b":5,"c":null,"d":"t"},"b":{"a":5,"b":null,"c":5},"c":5}
p /c/d/b/b {".sv":"timestamp"}; c /b/b/d/d; u /a/b/b {"a":"x","b":true,"c":null,"d":1}, /a/c 1, /b/d/b {"a":null,"b":true,"d":true}, /d true; p /a/a/c/a {"b":true}; e {"a":{"b":false},"c":{"b":"t"}}
e {"a":{"d":false},"b":{"c":5,"d":false},"c":{"a":false,"b":null,"c":5},"d":false}; e {"a":false,"b":{"a":"t","b":false,"c":"t"},"d":{"a":false,"b":null,"c":null}}
p /b/c/d null; c /d/c/b/a; p / true; p /b/a/a/c null; e null
u /a "x", /b/b true; e "t"; c /d; e {"c":"t"}
c /d/d/a/b; e "t"
p /b/d {".sv":"timestamp"}; e {"a":5}; u /b 1, /c/a {"c":-7,"d":null}; c /d; p / {"a":null,"b":"x","c":-7}; u /b null, /c {"b":null,"c":{".sv":"timestamp"}}, /d/d "x"; e {"c":"t","d":"t"}
c /d; p /c/b -7; p /b/b/c/b "x"; p /b 1; c /c/d; p /c {".sv":"timestamp"}; p /d/d/c/c 1; e null
c /; c /c; c /; p /d/d -7; p / "x"; e "t"; c /d/a/c; u /a/c/d -7, /a/d 1, /b/b "x", /d/d 1; u /b null, /c null, /d {"c":"x","d":"x"}; p /c {".sv":"timestamp"}; e null
u /a "x", /b/c -7, /c null; p /d/d/d null; p / {"a":{".sv":"timestamp"},"c":{".sv":"timestamp"},"d":true}; u /a/a/d -7, /b 1, /c {"b":null,"c":true}; u /b null, /c/a 1, /d -7; p /c/d {"a":true,"c":-7,"d":-7}; e {"d":{"a":false,"b":"t","d":"t"}}
c /; u /b {"a":-7,"b":{".sv":"timestamp"},"c":-7}, /c/b/c -7, /c/d {"b":{".sv":"timestamp"}}; e false; e {"a":{"a":null,"b":null,"c":"t"},"b":{"a":"t"},"d":"t"}; e {"a":{"b":"t","d":5},"b":{"a":5,"b":false,"c":false,"d":5}}
p /a/c/b 1; e false; u /a/c {"a":1,"d":true}, /b null, /c true, /d/b/c {"a":true}; e {"b":{"a":5,"b":false,"c":null,"d":"t"},"c":false,"d":{"a":null,"b":5}}; u /a {"c":true}, /c/a {".sv":"timestamp"}, /c/c {"b":true,"c":true,"d":null}; c /b/c; c /c/c; u /a/c null, /b/d/b {".sv":"timestamp"}, /c/a/c "x", /d/b/b true; e {"b":"t","c":{"c":false},"d":false}
u /a/a 1, /b/b {".sv":"timestamp"}, /c/b/b {"a":null,"c":1,"d":1}; p / {"d":{".sv":"timestamp"}}; u /b/b {"a":"x","c":true,"d":null}, /c -7, /d 1; p /b/d null; p /b/c/d/c null; c /a/c; c /a/a/a/a; p /a/a 1; p /c/a/d {"d":null}; c /a/c/d/d; e 5
c /d/d/d; p /a {".sv":"timestamp"}; p / {"a":{".sv":"timestamp"},"b":{".sv":"timestamp"}}; u /b/b/d 1, /c/c {"a":{".sv":"timestamp"},"c":null}, /d {".sv":"timestamp"}; e {"b":{"a":false,"b":false}}
p /d/a/a/d {".sv":"timestamp"}; u /a/d null, /c 1, /d/b/a 1; p /b/c {".sv":"timestamp"}; e {"a":{"b":"t","d":"t"},"b":{"b":null},"c":{"d":"t"},"d":"t"}; c /b/b; c /b/b; p /d true; e null; e {"a":{"a":false,"b":"t","c":null}}
p /b/b {"b":true,"d":-7}; u /a/a {"a":true,"b":1,"c":-7}, /b null, /d/b/c 1, /d/d/a 1; e {"a":null,"b":{"b":5},"c":{"a":"t","c":5}}
u /b 1, /c "x", /d null; c /b/c/b/d; p /d/a "x"; p /c/a/c/c 1; c /; e {"a":5,"c":{"a":null,"b":"t","c":5,"d":5}}
c /; p /a/b {"c":{".sv":"timestamp"},"d":"x"}; e 5; e {"b":false,"c":null,"d":{"a":"t","b":5}}; e {"d":{"b":"t","c":"t","d":null}}
p / null; p / "x"; c /d/c; e {"b":null}; e {"a":{"a":false,"b":null},"d":null}
u /a true, /b -7, /d/b "x"; c /a/b/a/a; p /c/c/b/d {"a":{".sv":"timestamp"},"b":-7,"c":"x"}; u /a/a null, /a/d {"d":1}, /b/a null, /b/d/d {".sv":"timestamp"}; c /b; u /a null, /c "x"; e false
c /a/c/d/b; p /b/b/c {".sv":"timestamp"}; c /d/c/c/d; e "t"
p /d true; u /a true, /b {".sv":"timestamp"}, /d -7; c /d/c; p /a/d/a {".sv":"timestamp"}; u /a/a {"b":-7,"c":{".sv":"timestamp"}}, /a/d null, /d {"b":"x"}; e {"b":{"a":false,"b":false,"d":5},"d":{"a":null,"d":false}}; e 5
u /a "x", /c/d {"b":1,"c":1,"d":null}, /d/a/a {"a":{".sv":"timestamp"},"b":1}; p /d 1; u /a/a/d true, /a/c {"a":1,"b":-7,"d":1}, /c 1, /d/d/c -7; p /b/a {"c":true,"d":-7}; e null
e {"b":{"c":false,"d":"t"},"c":false}; p /a {"b":null,"c":{".sv":"timestamp"},"d":1}; p /a {"a":-7,"b":-7,"c":1}; u /b/b null, /c {"a":null,"b":"x","c":{".sv":"timestamp"},"d":{".sv":"timestamp"}}, /d {"a":-7,"b":true,"d":-7}; e {"a":{"b":null,"c":5,"d":5},"b":{"a":"t","c":5,"d":5},"d":5}; p /a {"a":"x","d":true}; u /a/b "x", /a/c {"b":"x","c":true,"d":1}, /b {".sv":"timestamp"}, /c/a null; e false
u /c 1, /d {"b":1,"c":null}; p /b/b 1; p /d/b/a/c {"a":-7}; u /a/a/d "x", /a/b {"b":true,"c":true}, /c/a/c "x"; p /c true; c /a/d/b/b; p / 1; p / -7; e {"a":{"d":false},"b":false}
e 5; p /c/d/d/b {"a":true,"b":-7,"c":1,"d":"x"}; c /; e "t"
u /a true, /d 1; c /; p /a/a/a/b {"b":1}; e {"b":{"b":5,"c":5},"d":{"a":5,"b":"t"}}
p /d/a/a/b {".sv":"timestamp"}; e {"a":null,"b":{"a":null,"b":false,"c":5},"d":{"a":5,"c":"t","d":null}}; c /b; e false
p /a "x"; c /d; c /a/b; e {"a":{"a":"t","b":false,"c":false,"d":false},"c":{"c":false,"d":null},"d":"t"}
u /b/c "x", /c/b/a null, /c/c {"a":-7,"c":"x","d":null}, /d/a/b {"c":null}; c /; c /c/b; p /a/b/b {".sv":"timestamp"}; e {"a":{"a":"t","b":5},"c":{"a":"t","c":false,"d":5}}
c /a/b/c; e {"b":{"a":false,"b":null,"c":5},"c":5,"d":{"a":"t","b":5}}; c /b/d/c/c; c /d/a; e {"b":null,"c":5,"d":{"a":false,"d":null}}; e "t"
p /b/b/b/a null; p /a/a/d/d "x"; c /; p /a/c/b true; c /; u /a/b/c "x", /a/d/b {"b":null,"c":true}, /c/d/b true, /d/b true; e 5
p / {".sv":"timestamp"}; p /a/d/a {"c":"x"}; p /c/c/b {".sv":"timestamp"}; u /a {"a":1,"c":1}, /c {"a":{".sv":"timestamp"},"b":"x","d":null}; c /b/b/a/b; c /b/b/c; e {"b":{"a":false,"b":null,"d":null},"d":false}
p / "x"; p / -7; p /a/a -7; p /d/a/c/a null; p / {".sv":"timestamp"}; p /d {".sv":"timestamp"}; u /a/c/c -7, /b/c/a {"a":{".sv":"timestamp"}}, /d/b {"a":null,"c":-7}, /d/c "x"; u /a {"a":1,"c":-7,"d":1}, /b/b/d {".sv":"timestamp"}; e {"b":{"b":false,"d":"t"},"c":{"a":null,"d":5}}
c /d/d; e {"a":{"a":false,"c":false,"d":null},"d":{"d":null}}; p /d true; p / 1; p /c/d/c/c "x"; e {"a":"t","d":{"b":false}}
p /d/d/b/a -7; e {"c":{"a":"t","b":false,"c":"t"}}
u /b/b null, /c null, /d {".sv":"timestamp"}; p /a/d/d/d null; p /a 1; u /a true, /b true, /c/b {"c":1}; c /; p /a/c 1; e false
c /b; e null; e {"a":5,"c":{"b":null,"c":"t","d":false},"d":null}
p /c/d/c/c {".sv":"timestamp"}; e {"a":5,"c":{"b":false,"d":"t"},"d":{"a":5,"b":false,"c":5,"d":5}}; p /b/b true; c /c/b/b; p /a/a 1; p /a "x"; p /b -7; e {"a":null,"d":"t"}
c /; p / {"a":-7,"b":{".sv":"timestamp"},"c":true,"d":true}; c /b; c /d/d; e null
c /; p /a/d/b true; p /b/d/b {".sv":"timestamp"}; p /c/b {"a":-7,"c":1}; e {"a":{"a":null,"d":"t"},"b":5,"c":5,"d":{"b":5,"c":false,"d":false}}
p /d/b/d "x"; p /a/d {".sv":"timestamp"}; p /b -7; c /; e {"a":{"a":null,"b":5,"c":false,"d":"t"},"b":"t","c":{"b":false}}
p / null; p / {"a":{".sv":"timestamp"},"c":true}; p /b "x"; c /; p /d/b {"b":{".sv":"timestamp"},"d":null}; p / {".sv":"timestamp"}; p /b/b/d null; e {"a":{"d":5},"c":{"b":5,"c":5},"d":{"b":"t"}}
c /d; e {"a":{"b":false,"d":null},"b":5,"c":5,"d":false}
u /c/c -7, /c/d {"c":null}, /d/d {".sv":"timestamp"}; u /a null, /c/c -7, /d null; e false
c /d/a/c; p /a true; p / {"a":"x","b":null,"d":null}; e {"a":{"b":false,"c":5,"d":false},"b":null,"c":{"c":5},"d":{"a":false,"b":false,"d":5}}; e {"a":{"a":false,"b":5},"b":{"c":null},"d":{"d":"t"}}
u /a/c/d 1, /b/b/d {"c":{".sv":"timestamp"}}, /b/d {".sv":"timestamp"}, /d/b/a {"b":{".sv":"timestamp"},"d":-7}; u /c/a true, /c/b null, /c/d/d {"a":{".sv":"timestamp"},"b":-7,"d":1}, /d/b/d {".sv":"timestamp"}; p /c/a -7; c /; c /; u /b {"b":null,"c":true,"d":{".sv":"timestamp"}}, /d/a/b true; p /c/a/c {".sv":"timestamp"}; e {"a":null,"c":null}
c /a/c/a/b; c /c; p /a -7; e "t"
u /a/a null, /b 1, /c {"b":"x","c":{".sv":"timestamp"}}; p /a/c {".sv":"timestamp"}; e null
p / null; u /a {"b":true,"d":-7}, /b/a/b {".sv":"timestamp"}, /d {"a":null,"b":null}; p /c/b/b/a "x"; c /d/c/d/b; p /a/b {"a":true}; c /d/b; u /a/a -7, /b {"c":1}; c /c/b/b; p / true; p /b/b/a true; e {"b":{"a":5,"c":"t"},"c":5}
p /b/b null; e "t"; p /c null; p /c/a -7; e {"a":false,"c":false,"d":{"a":false,"b":"t","c":"t"}}
p /c/b/d/c {"b":-7}; c /c/a/b; c /c/b; c /c; e 5
p /d/b/d/b {"c":true}; p /b/a 1; e "t"
u /a/d {".sv":"timestamp"}, /b/d -7, /c/c/a 1, /c/d true; c /; p /b/d/a {".sv":"timestamp"}; c /b; e {"a":{"d":false},"c":{"a":5,"b":"t","c":null},"d":{"a":false}}
p /b {"a":1,"c":"x"}; p /b/b "x"; p /b -7; e {"a":null,"b":false,"d":{"a":"t","b":null,"c":false,"d":null}}
p /b/a/b {"b":{".sv":"timestamp"}}; e null
c /; p /a/b/b/a 1; p /d/c/a/b {".sv":"timestamp"}; p /d/c/a null; p /c/d/a "x"; e {"b":{"a":null,"b":5,"c":null}}
e 5; e {"b":{"b":"t","c":5},"d":false}
p /b/d {".sv":"timestamp"}; e {"c":{"c":5,"d":false}}; c /d/b/a/a; p / {".sv":"timestamp"}; e {"a":"t","b":{"a":"t","b":"t","d":"t"},"c":false,"d":{"a":5,"b":"t","d":5}}
p /d {"a":-7,"c":1,"d":true}; e {"a":5,"c":{"a":false},"d":"t"}
p / {".sv":"timestamp"}; c /b/c; c /; p / "x"; c /; c /d/b/c; u /a/b "x", /b {".sv":"timestamp"}, /c/b {"c":{".sv":"timestamp"}}, /d/b/c {"a":-7,"b":"x","d":{".sv":"timestamp"}}; c /b; e null
e {"a":{"a":null,"b":"t","c":null,"d":null},"b":{"b":"t","c":null,"d":5},"c":{"a":"t","c":"t","d":false},"d":null}; e false; u /a "x", /c null, /d {".sv":"timestamp"}; c /b/c/b/a; e {"b":{"a":"t","b":5},"d":{"a":null,"c":null,"d":false}}
c /d/d; e {"a":{"a":null,"d":5},"b":{"b":false,"c":false,"d":5},"c":"t","d":false}; p /c/c true; p /c/d/d/d {".sv":"timestamp"}; c /; e null
c /b/c/a/a; e 5; p /a/b -7; c /a; e {"a":"t","c":{"c":null}}
p /d/a/c/c {".sv":"timestamp"}; p /a/a/b/d 1; p /c/a/c {"b":-7,"d":"x"}; c /c; c /b/a; e {"a":{"a":5},"c":null,"d":{"b":null,"c":5,"d":null}}
c /a/d/c/d; e false; c /; c /a/c; u /a/c/c {"a":1,"b":true,"d":-7}, /b/a/b true, /b/b -7, /c/d/b "x"; p / true; p /d/b/b/b {"a":{".sv":"timestamp"}}; p /c/a/d null; p /c/b/d/a {"c":-7}; e "t"
c /a/a; p /b/b null; p /d/a/d/c {"b":-7}; e {"c":{"a":5,"b":false,"c":5,"d":"t"}}
e {"b":{"b":"t"},"c":"t","d":{"a":"t","b":false,"c":"t"}}; e false
u /a/c/b {".sv":"timestamp"}, /a/d/d 1, /b/c {".sv":"timestamp"}, /d/b {".sv":"timestamp"}; p /b {"b":1}; e "t"
u /b/c "x", /c/b null, /d/c/c true, /d/d null; p /b/c {"b":null}; p /a/a/a {".sv":"timestamp"}; e {"a":{"a":false,"b":5,"c":null},"b":{"b":false}}
u /b/a true, /c null, /d "x"; p /b/c/d {".sv":"timestamp"}; c /d; c /b/a/d/b; e null; e 5
p /c/d true; c /d/c/c/b; c /b/d; e null
p /c/d/b -7; c /b; p /b/d/b/c "x"; p /b/c {".sv":"timestamp"}; c /a/d/c; e {"a":"t","b":{"b":null,"c":"t"},"c":{"a":5,"b":"t","c":null,"d":null}}
p /a/a/b/b "x"; e "t"
p /d/a/d 1; p /a/a -7; c /; e 5
p /c {"d":{".sv":"timestamp"}}; p /a/d/b {"a":null,"c":{".sv":"timestamp"}}; e {"d":{"a":false,"d":null}}
c /d/d/d; p /b/c/c/c null; p /a/d/a {"a":null,"c":"x","d":null}; e null; c /d/b/c/a; p /c {".sv":"timestamp"}; c /c/b/c; c /c; p / -7; e {"a":{"a":5,"c":false,"d":false},"d":{"a":5,"b":"t","c":false}}
c /c; p /b {"a":"x","c":"x"}; e null
p /d "x"; p / -7; p /c/b {".sv":"timestamp"}; p /c/b {"c":"x","d":{".sv":"timestamp"}}; p /d/d {".sv":"timestamp"}; c /c; p /a {"b":-7,"c":{".sv":"timestamp"}}; p / true; e {"a":{"b":5},"c":{"a":null,"c":null}}; e {"a":{"a":false,"c":5,"d":null},"d":"t"}
p /b/c/a "x"; p /c/c/c/c -7; e 5
c /d/d/b/c; c /; c /a/d/c; p /c/c/b 1; c /a/d/c; c /a/a; p /b/d true; p / {"a":{".sv":"timestamp"},"b":{".sv":"timestamp"},"c":true}; p /d/c {"b":-7,"c":1}; c /c/a/b/b; e {"a":{"a":5,"b":false,"c":"t"},"b":{"a":5,"d":5},"c":false,"d":false}
c /a/a; e {"d":5}; p /d {"c":null}; e 5; u /a/c {"b":-7,"c":true}, /c "x", /d null; e {"a":false,"c":{"b":"t","d":null},"d":{"a":5,"b":null,"c":false}}
c /; p /c/c/a/d {"a":{".sv":"timestamp"},"d":1}; p /a/c/b/b {".sv":"timestamp"}; e false
p /b/a "x"; p /a/d/c/a {"a":null,"d":true}; p /a/b {"a":1,"b":"x","d":{".sv":"timestamp"}}; p /d/c/b true; p /b/b/c/a true; p /d/b/b {"a":-7,"c":true}; e 5; e "t"; p /a {"c":true}; e "t"
p /c/c/d/c {"a":true,"b":null,"c":true,"d":"x"}; e {"a":{"a":null,"d":5},"d":5}
p /d/c/b/d -7; p / 1; c /c/b; c /b/d; e {"b":{"b":"t","d":null},"d":false}
c /a; u /a {"a":-7,"b":{".sv":"timestamp"},"c":1}, /b -7, /d/a/b "x"; c /d/c/b/a; u /b -7, /c/c/d "x", /d null; u /b/b 1, /c 1, /d/d/c {".sv":"timestamp"}; p /a/b 1; e {"a":"t"}
p / -7; c /a/a; e 5
c /; c /b/b/a; c /d/d/a/a; u /a true, /c/d "x", /d null; p /b/c {".sv":"timestamp"}; c /; e {"a":null,"b":{"a":false,"b":null,"d":"t"},"c":{"a":"t","b":null},"d":{"c":5,"d":5}}; e {"a":false,"b":{"a":5,"b":5,"c":5},"c":{"c":null,"d":null}}
p / null; c /b/a; p /d/c "x"; p /d/b/d "x"; p /a {"a":true,"b":true,"c":1,"d":-7}; p /a {"b":null}; p /a/d -7; u /a/b null, /a/d/d {".sv":"timestamp"}, /b/b "x", /c -7; p /d/b/d 1; c /a/b/b; e false
c /d/b; u /a/a/d null, /a/b "x", /b/b true, /c/d {"a":-7,"b":-7}; c /; p /b/c/b/b {"b":"x","d":{".sv":"timestamp"}}; e {"a":"t","c":null,"d":{"a":false,"c":null,"d":null}}; c /c; p /d/a/d 1; c /; p /a/c/d {"a":1}; e 5
c /d/c/c; p /d/d/a null; u /a/d null, /b true, /c -7; u /a/a {"a":-7,"b":{".sv":"timestamp"}}, /c/b "x", /c/d 1, /d/c {".sv":"timestamp"}; e {"a":false,"c":{"b":null,"c":5},"d":{"b":"t"}}; p /a/a/d/c 1; p /b true; e {"b":false,"d":{"a":null}}
p / 1; c /d/d/c/d; p / "x"; e {"a":{"a":"t","b":null,"c":false},"b":{"a":5,"c":false,"d":5},"d":5}
e {"a":{"a":5,"b":false,"c":"t","d":false},"d":{"b":"t","c":"t"}}; p / {"b":1,"d":{".sv":"timestamp"}}; c /a/c/d/c; c /c/d; p /b 1; c /a; e {"a":{"c":"t"},"c":{"a":"t","d":5},"d":null}
c /a; e {"a":{"a":false,"b":false},"b":{"a":5,"b":"t","c":5,"d":false},"c":false,"d":{"a":false,"b":"t","c":5}}
p /d true; e {"a":{"b":5,"c":null,"d":"t"},"b":{"b":"t","c":false,"d":"t"},"c":{"a":null,"b":"t","c":false},"d":{"a":5,"b":false,"c":"t","d":false}}; p /c/a/b {".sv":"timestamp"}; c /b/c/b; c /a/b/b; c /a/d; c /b/c/c/d; p /b {"b":{".sv":"timestamp"},"d":true}; p /b/b/a/a -7; u /a/a/a {".sv":"timestamp"}, /a/b -7, /a/d/c 1, /b -7; e {"a":null,"b":{"a":false,"b":null},"c":{"a":false,"b":null}}
c /; e 5
e {"b":{"a":false,"b":null}}; p /c -7; p / 1; p /b/c/a true; c /d/b; e {"b":{"a":5,"b":false,"d":"t"},"c":{"a":null,"c":"t","d":"t"},"d":null}
p /b/d/c -7; c /c; p /c/a/a -7; p / 1; e {"b":{"a":"t","b":null,"c":false},"c":{"b":"t","d":null}}; p /d/b/b {"b":-7}; u /a/c/a -7, /b/d/c -7, /c/a {"a":-7,"c":{".sv":"timestamp"}}, /c/d/a {"b":null,"c":1}; p /a/d/c {"a":null,"c":1,"d":"x"}; p /c/b/d/a null; p /b/d/b {"c":null}; e {"c":{"a":"t","b":5,"d":null},"d":{"c":false}}
c /c; c /; p /c/b true; e {"a":{"a":null,"b":false,"d":"t"},"d":{"b":null,"c":5,"d":false}}
u /b/a 1, /c {"c":true,"d":true}; c /; e {"a":false,"c":{"a":false}}
c /a/c/b; p /a true; c /; e {"a":{"a":false,"b":false,"c":false},"b":null,"c":false,"d":false}; p /a/a/b/d {"b":1,"d":1}; p /d/c/b {".sv":"timestamp"}; c /a/c/d; u /b/c {"a":true,"b":1,"c":true}, /c {".sv":"timestamp"}; p /d "x"; p /c -7; e 5
p /b 1; c /b; c /a; c /; u /b null, /d {".sv":"timestamp"}; c /d/d/b/d; c /; e "t"
c /a/c/c; c /a/b; e {"b":{"a":null,"b":5,"d":false},"d":{"b":5,"d":false}}
p / 1; u /a/d {"c":1}, /c/a {"a":1,"b":{".sv":"timestamp"},"d":-7}, /c/c "x"; u /a/c/b -7, /c "x"; p /c/a/c true; p /b/b/b/a "x"; c /; p /b/d/c {"d":null}; e {"c":{"b":"t","c":null}}
c /c/b/a; p /d 1; u /a true, /c -7, /d/c {".sv":"timestamp"}, /d/d/d 1; c /d/c/c; p /a {"a":1,"c":true}; e 5
e {"a":{"c":false,"d":5},"d":false}; p /b/b null; u /a/a {"a":"x","c":true,"d":true}, /b {"b":"x"}, /c/c/d true; p /c/b/a 1; c /; u /a/d/d {".sv":"timestamp"}, /b/c "x", /d/d true; p /b/b/d "x"; c /; c /c/d/a; e {"b":"t","c":null,"d":{"a":"t"}}
p /c/c/b/d "x"; e {"a":{"a":null,"b":5,"c":false},"b":5,"c":{"c":null,"d":null},"d":{"a":"t","b":5,"d":5}}
c /d/d/d; e {"a":{"b":false,"c":5},"d":null}; e {"b":{"a":5,"b":false,"c":null,"d":5},"c":false,"d":5}; e {"a":false,"b":{"a":5,"b":false,"c":false,"d":false},"c":{"b":false}}
e false; u /a/d -7, /d {"c":1}; p /d/b/a/b -7; p /b {".sv":"timestamp"}; c /d; c /d/b/b; e {"b":null,"c":null}
e 5; c /d; c /a/b/c; p /c/c/d/d -7; c /b; p /c/b -7; e {"b":null,"c":{"a":5,"d":5},"d":{"d":false}}; e {"a":false,"c":{"b":false,"d":false}}
255 p /d/% null; p / true; c /c/b; c /b/d/a/d; p /d/d/d/d true; e null
p /a {".sv":"timestamp"}; u /a/d/a "x", /b {".sv":"timestamp"}, /c/c true, /d/a true; e null
p / "x"; u /a/b "x", /c/a/d -7, /c/b/d null, /c/d "x"; c /d/b/d/c; p / {".sv":"timestamp"}; p /c/c {"a":true,"c":"x"}; e 5
c /b/c; p / "x"; e {"a":{"a":"t","b":"t"},"c":false}
p /b/d/c/b {"a":{".sv":"timestamp"},"c":null}; c /d/b/a; e {"b":{"b":null,"d":5},"c":{"c":null,"d":5},"d":{"a":null,"c":null,"d":false}}
p /a/c/c null; c /b; c /; e {"a":null,"c":{"b":5,"c":"t","d":null}}; c /c/c/a; p /c/c/b {"c":true,"d":"x"}; e 5
p / 1; e {"a":{"a":5,"b":"t","c":null,"d":false},"d":{"b":false}}
p /d/c/c/d {"c":null,"d":-7}; p /b/d "x"; u /a/a/a 1, /c/b/a {".sv":"timestamp"}, /d {"b":null,"c":null,"d":1}; c /; p /b/b/b/a true; e "t"
p /d -7; p /b/b/c/d -7; c /b/c/d/a; p /c 1; u /a/b 1, /b/c {"a":"x","b":-7,"c":true}, /c true, /d/a {".sv":"timestamp"}; e {"d":"t"}
p /b {"a":{".sv":"timestamp"},"c":1,"d":true}; c /d; p /c/c/d/c {"b":"x","c":"x","d":{".sv":"timestamp"}}; p /a {"b":null,"c":"x","d":-7}; p /c/d true; c /b/d; e {"b":{"d":5},"d":false}; u /a {".sv":"timestamp"}, /d/a/b true, /d/c "x"; c /b/c/a; p /b 1; e {"a":null,"c":false}
p /c/b/c/a {".sv":"timestamp"}; p /a/a/a -7; u /b "x", /c 1, /d/b/a {"a":1,"b":-7}; c /; p /a null; e {"b":{"b":5,"d":"t"},"c":5}; c /d/c; c /d/c; e {"b":{"a":null,"b":false}}
c /d/c/d/d; p /d {".sv":"timestamp"}; c /d; c /; e {"a":{"b":"t"},"c":{"a":false,"d":null},"d":null}; p /b/a/a/a {"a":null,"b":-7,"d":true}; p / 1; p /a/b/d null; e {"a":{"b":5,"c":5},"b":5}
p /b/a/b/c -7; p /d/b/b {"a":-7,"b":null,"c":"x","d":-7}; e {"c":null}
p / {"a":"x","b":"x","c":true}; p /c/d null; c /a; p /a/a/d 1; p / {".sv":"timestamp"}; u /a {"a":-7}, /b "x"; p /c/d/a/b {"c":-7,"d":"x"}; p /c/c/b {"b":{".sv":"timestamp"},"c":-7,"d":{".sv":"timestamp"}}; p / {"a":1,"b":{".sv":"timestamp"},"d":true}; e null
p /b/c null; p / 1; e {"b":{"a":null,"d":null},"c":false}; c /a; u /a/b {".sv":"timestamp"}, /b {"a":1,"b":true,"c":true}; c /b/a/c/a; p /a/a/a/c true; c /c/c/c; e null
p /d/b {"a":-7,"b":{".sv":"timestamp"}}; p /d/d/d/d "x"; p /c/a {".sv":"timestamp"}; c /a/a/c; e "t"
p /c/d/b/c true; c /d/a/c/d; e null; c /b/d; e "t"
u /b/a {".sv":"timestamp"}, /b/d null, /d {"c":{".sv":"timestamp"}}; e {"a":{"a":null,"b":"t","c":null},"c":null,"d":"t"}; p / true; c /; p /d "x"; e {"a":false,"b":{"a":null,"d":"t"},"c":null,"d":{"c":5,"d":null}}; c /c/d/c; c /b/b; c /d; e {"a":"t","b":false,"c":false,"d":5}
p /a/a/d {".sv":"timestamp"}; u /a/c {"a":{".sv":"timestamp"},"c":1}, /c/a/d {"a":-7,"d":"x"}, /c/c {"b":1,"d":1}, /d/a "x"; p /b/c/d {"b":1,"c":null,"d":"x"}; c /; u /a -7, /b {".sv":"timestamp"}, /d/c/b {".sv":"timestamp"}; e {"a":{"b":false},"b":{"b":"t","c":5},"d":{"a":5,"b":false,"c":5,"d":5}}
c /d/d; p /a/d/a/c {".sv":"timestamp"}; c /; u /b/b/d {"c":true,"d":1}, /b/d/b -7, /d/a {"b":1,"c":{".sv":"timestamp"},"d":-7}, /d/d null; p /b/b/b {"a":"x","c":null}; p /b/b/a/a {"a":"x","b":"x","d":null}; p /d {".sv":"timestamp"}; p /a 1; e {"a":{"a":"t","b":null,"c":null,"d":"t"}}; p / null; e "t"
p / {"b":null,"d":-7}; c /a; c /b; e {"b":{"b":null,"c":false}}
u /a 1, /d/b true, /d/d 1; c /c/d; c /; p / 1; p /c/c/a/b true; u /b null, /d/b/d null; e {"b":false,"d":false}
u /a/c/a true, /b null, /d/a "x", /d/b true; e {"a":null,"b":{"a":"t","c":null}}; e {"a":false,"b":{"b":5,"c":"t","d":5},"d":null}
c /d/c/c/a; u /b/c {".sv":"timestamp"}, /d {".sv":"timestamp"}; p /b/c "x"; p /a/c/d true; c /b; c /a/b/c; e "t"
p /a/c/d/b {"c":-7,"d":"x"}; p /b/c "x"; p /c/c {"a":{".sv":"timestamp"}}; c /c; c /a/b/a; e {"a":{"b":5,"c":5},"c":{"b":null},"d":"t"}
u /a/b true, /b true, /d/a/b null, /d/a/c 1; p /d/d/d/d {"b":"x","d":-7}; e false; c /; p /d/a/b {"a":null}; e null
p /d true; p /a/c/b null; p / null; u /a/a 1, /b/c {"b":null}, /d/a null, /d/d {"a":"x","c":null,"d":"x"}; e {"a":false,"c":{"a":"t","b":false,"c":false,"d":5},"d":{"b":false,"c":5,"d":5}}
p /c/d/d/c {".sv":"timestamp"}; c /d/d/d; u /a/d 1, /b {".sv":"timestamp"}; p /d/c/b/b true; c /c/c/d; c /b/a; c /d; c /b; e 5
p / true; c /d/d; u /a/b -7, /b/c/d 1, /c/a {"b":true}, /d/c/b true; p / {"d":-7}; e {"b":null}
p /c/a/b "x"; e false
c /d/b/b/b; p /c/a/a/c true; c /a/d/d/a; e {"d":null}
c /c; c /a/b; u /a null, /c/a {".sv":"timestamp"}; e false
p /d/c/b null; p /c/b {".sv":"timestamp"}; p / null; c /b/b/b; u /a/a null, /c/a {".sv":"timestamp"}, /d/b {".sv":"timestamp"}; e {"c":{"a":false,"b":5,"d":null},"d":null}
c /a/b/c/d; u /b/a/d {"b":true,"d":{".sv":"timestamp"}}, /b/b "x", /c null; p /c/a/d {"d":"x"}; p /a/b/b/d {".sv":"timestamp"}; u /a {"a":"x","b":true,"c":{".sv":"timestamp"}}, /c {".sv":"timestamp"}, /d 1; p /b/c/b/a null; p /d {".sv":"timestamp"}; p /b "x"; p / {"b":{".sv":"timestamp"},"c":null,"d":{".sv":"timestamp"}}; p /c/c {"a":true,"b":true,"c":null,"d":null}; e 5
p /d null; c /c/b; p /b/c -7; p / {"a":null,"b":1}; e "t"
p /c {".sv":"timestamp"}; c /b; e false
p /c -7; e null
u /a/a/b null, /b -7, /d/c null, /d/d "x"; e {"d":{"b":null,"d":false}}
p /c/a/c/c -7; u /a {"d":{".sv":"timestamp"}}, /b/a/b {".sv":"timestamp"}, /c/b {"a":{".sv":"timestamp"},"b":null,"d":-7}, /d/b/b "x"; u /b {"d":null}, /c/a/d {"a":null,"b":{".sv":"timestamp"},"d":"x"}, /d/b/c -7, /d/c/d null; c /b; p / -7; u /a 1, /b/a {".sv":"timestamp"}, /d/a/a true; e null
p /a 1; c /; p / null; e null
c /d/a/c/d; c /c/c/d/d; e false
c /; e "t"
p /d/b/a {".sv":"timestamp"}; c /d/c/a; p /a/d/c/b null; c /c/a/b; e {"a":"t","c":{"d":null},"d":{"b":"t","d":5}}; c /a/c/c; p /d/a/b null; e {"b":{"b":"t","c":5,"d":5},"c":{"b":false,"c":null},"d":{"a":5,"b":"t","c":"t"}}; e {"c":{"a":"t","b":false,"c":"t"}}; c /a/d/d; e "t"
p /a/c/b {"a":null,"c":"x"}; p /a/d/b {".sv":"timestamp"}; c /c/a; c /b/a; e false
p /b/b {"a":null,"b":1,"c":1,"d":{".sv":"timestamp"}}; p /a/b {".sv":"timestamp"}; p /b/b/d "x"; e false
c /c/c/c/c; e {"a":false,"b":"t","d":false}
p /c/b/b "x"; p /b/c true; c /c/c/b/c; p /c {"d":1}; p /d -7; e {"c":5}
c /d/c/d; u /b true, /c true, /d {".sv":"timestamp"}; p /a/b/b/b {".sv":"timestamp"}; c /a/a; p / {"d":"x"}; e "t"
p /d/a/d/b "x"; u /a/b/a "x", /c/a "x", /c/c/a {"c":-7}, /d {"a":null,"b":{".sv":"timestamp"}}; c /b/d/a; p /c "x"; p /d/a/d -7; e {"a":null,"b":{"a":false,"b":false,"c":null,"d":null},"d":5}; p /c/d/b {"a":{".sv":"timestamp"},"c":1,"d":"x"}; c /d/a/d; p /c true; u /a null, /b/d null, /d {".sv":"timestamp"}; e null
e {"a":5,"c":{"c":false,"d":null},"d":{"b":5,"c":false,"d":5}}; u /b -7, /c/a/c {"b":true,"c":"x","d":true}, /c/d {"b":null,"c":{".sv":"timestamp"},"d":"x"}, /d/a/a {"b":{".sv":"timestamp"},"c":true,"d":{".sv":"timestamp"}}; p / true; c /a/d/b/b; p /a/c "x"; e {"a":{"a":"t","b":5,"c":false},"b":false,"c":{"c":"t","d":null},"d":{"a":"t","d":null}}; e 5; p /a/d/b {"c":true}; c /b/a/d/d; c /; e {"c":{"b":"t"}}
u /a {"a":true,"b":true,"c":1}, /b/c/c {".sv":"timestamp"}, /c/a/b {".sv":"timestamp"}; p /b null; e null
e null; c /; c /c/a; u /a/b null, /a/c/b {".sv":"timestamp"}, /b/d/b -7, /c "x"; c /; u /a/b 1, /c {"c":null,"d":true}, /d/c/a {"a":-7,"c":1,"d":true}, /d/d 1; c /b/d; e {"a":"t","b":false}; e 5
p /a {"c":true,"d":-7}; p /d/b/d {".sv":"timestamp"}; p /c/b/a/a 1; e null
p /c/b/a/c {"a":"x","b":null,"c":-7}; u /b {"a":1,"b":null,"c":{".sv":"timestamp"}}, /c/a/c {"c":true}, /d null; p /c/b/d/b -7; c /c/a; c /b/a/d/c; u /a {"a":null}, /c/d/a 1, /d/d {"a":true,"c":-7}; c /d/a/b; u /a {".sv":"timestamp"}, /b/c null, /d/b/a -7; p /b/a/b "x"; c /; e {"a":null,"d":"t"}
c /a/d/a; p /a/a 1; p /c/a {"c":-7,"d":{".sv":"timestamp"}}; p / 1; u /a/b "x", /c/b/b {"b":null}, /d/b/a {"a":-7,"b":1,"c":null}, /d/d/c null; p / 1; p /b/d/b/d {"a":true}; u /a -7, /c/d 1, /d null; c /d/c; e false
p / -7; c /c/d/a/d; e false; c /c; e false
p /d/d/b {".sv":"timestamp"}; e {"a":"t","c":{"a":false,"b":5,"d":null},"d":{"a":false,"d":null}}
c /; u /a/c {"a":true,"c":"x","d":{".sv":"timestamp"}}, /b/d/c -7, /c {".sv":"timestamp"}; p /a {"b":{".sv":"timestamp"},"c":true}; c /d/a/c; c /d/c; u /a/c -7, /b "x", /c/d 1; p / true; p /c "x"; e "t"
p /b/d/d/a {".sv":"timestamp"}; p /d/b/a {"a":null,"b":true,"c":{".sv":"timestamp"},"d":true}; p /a/d "x"; p /a/a/d -7; c /a/b/a; c /c; u /a/c "x", /b/a/a {"a":"x","b":-7,"c":null}, /c -7, /d/a/b null; e {"b":{"a":false},"d":{"a":false,"d":false}}; e 5
e {"c":false}; c /a; u /a/a/c -7, /c/b/a true, /d -7; c /b/d; c /c/d; c /b/c; u /b/d/a -7, /c true, /d true; p /b {"d":null}; p /d/a "x"; p /b/a/d true; e {"a":"t","b":{"b":"t","d":null},"c":5}
c /d/d/c; p / -7; p /d {"b":"x"}; e 5
p /b/a/b true; c /; p /c true; p /c/b 1; p /c {".sv":"timestamp"}; p /c/c {"a":null,"c":-7}; e "t"
e null; c /b/d; c /d/b/c; c /d/d/d/c; p /b/a/c "x"; p /c/a/b {"c":1,"d":1}; p /b/b/c true; c /b/b/c/d; p /d/a/b/a true; e "t"
c /c/c/a/d; p / 1; p /a/d/b {"b":null,"c":-7,"d":1}; c /; u /b/c {"d":true}, /c/c {"a":null}, /d "x"; c /c; c /c/b; p /c/d/c -7; e {"a":{"a":5,"c":5,"d":null},"c":{"d":"t"}}; c /; e {"a":{"a":null,"b":"t","c":false,"d":false},"b":false,"c":{"a":null},"d":5}
p /b/d/d true; p / null; c /b; e false; c /; u /a/a -7, /b/d/d {"b":null,"d":-7}, /c/a -7, /c/c/a {"c":1}; c /b/a/b; e {"b":{"b":"t","d":"t"},"c":false,"d":false}
u /a -7, /d/b/d 1, /d/c/c 1; p /a/b 1; c /d; e "t"; e 5
p /b/b {"a":-7,"c":true}; p /b/a/d -7; p /c/d null; c /b; p /a/a/a "x"; p /c/c/d "x"; p /c null; p /c {"a":null}; c /c/c/a; e {"a":{"b":5,"c":"t","d":5},"d":{"a":null,"b":"t","c":"t","d":false}}
c /d/b; p /d/d/b/d true; c /; c /c/d; p /b/c/c/c {"b":"x","c":null,"d":null}; u /a/b/c {"b":null,"c":true}, /c {".sv":"timestamp"}; e null
e 5; e {"a":5,"b":{"b":null,"c":null,"d":"t"}}; u /b/c "x", /c/a/d null, /c/c 1, /d/c/a "x"; e {"a":"t","b":{"a":"t","b":5,"c":"t","d":null},"c":5}
p / "x"; e {"a":false,"c":{"a":null,"b":"t","c":"t"},"d":{"c":5}}; c /a; c /; c /a; e {"b":false}; e "t"
c /b/c/a; u /a/d null, /b/b null, /c/d {".sv":"timestamp"}, /d 1; c /d/d/b; e {"b":null,"d":null}
p /a {"a":{".sv":"timestamp"},"c":null}; c /; c /c; p /c/b/a "x"; u /b/b true, /b/d {"c":true,"d":"x"}, /c {"a":1,"c":-7,"d":1}; p /b/c {"b":-7,"c":1}; e {"d":5}
p /a/c/a true; e 5; c /c/c/a/b; u /a {"a":"x","b":null,"d":null}, /b/d/b null, /c/c null; p / null; p /a null; p /c/a/d/b 1; c /a/c/b/d; e {"c":{"b":false,"d":5},"d":{"a":null,"b":null,"c":null,"d":null}}; e {"a":{"a":false,"b":5},"b":{"d":5},"d":"t"}
c /d/d/d/b; p /c {"a":null,"b":"x","c":null}; p / {"a":-7,"b":null}; p /c/b/d/a {"d":null}; p /c/c/d -7; p /c/c {"a":{".sv":"timestamp"},"c":-7,"d":-7}; e {"b":"t","c":{"a":"t","b":null}}; p / {".sv":"timestamp"}; e {"d":null}
p /d/d/d null; e {"a":false,"b":{"a":null,"b":5,"c":"t","d":"t"},"c":{"a":"t","b":"t"},"d":{"a":5,"b":5,"c":5,"d":"t"}}
p /d/c null; c /a/c/d; p /b/c/c/c null; c /a/d/c/b; p /a/a/c/d {"a":"x","c":null,"d":{".sv":"timestamp"}}; e "t"
c /b; u /a {".sv":"timestamp"}, /d 1; c /; u /a/a {".sv":"timestamp"}, /b null, /c/c/b null, /d/a {"a":{".sv":"timestamp"},"c":"x","d":true}; c /b/d; c /c/d; p /b/c/c/b "x"; c /c/d; u /a "x", /c -7; e null
p /a/d/a/a null; c /; e {"a":5,"b":{"a":false,"b":5},"c":{"b":"t","c":5,"d":false},"d":{"a":"t","b":false}}
c /b/b/c; e "t"; u /a/a/b -7, /a/b -7, /c -7; e null; p /b/a "x"; c /b/b; c /c/d/d; p /d/a/b "x"; e {"c":"t","d":{"a":false,"d":"t"}}
c /; e 5
p /c/c/a/a 1; e {"a":{"a":5,"d":"t"},"b":{"b":"t","c":null,"d":"t"},"d":{"a":null,"c":"t","d":false}}; u /a 1, /c/c/d -7; p / true; e false
p /b/c/d null; p /a/b/b/d 1; p /a {"a":-7}; c /c/b/b; e null; c /a/d/b/d; p /c/a {"a":"x","b":-7,"d":"x"}; p /d {".sv":"timestamp"}; c /c/b/b; u /a {"d":-7}, /b {"a":{".sv":"timestamp"},"b":1,"c":true}, /d "x"; e "t"
p / true; p /c/a "x"; e {"b":{"b":null,"c":null},"c":{"a":5,"b":"t","d":false}}
u /a/b 1, /b/d 1, /c/b "x", /d/c "x"; u /a true, /b 1; c /; p / 1; e null; p /c {"c":-7}; u /a/b true, /b/c/b -7, /c/c/b null, /d/b true; p /c/c/b/a null; c /c; e {"c":false}
c /a; c /; u /a null, /b {"a":true,"b":{".sv":"timestamp"},"d":{".sv":"timestamp"}}, /c/c/a 1, /d/d {"a":"x","c":null,"d":1}; e {"a":null,"b":false,"c":null}
c /b; e {"a":"t"}; p /d/c/a 1; c /d; e {"a":false,"c":null}; c /d/c/a/b; p /c/d/d/c true; c /c; p / true; e {"a":null,"c":{"a":null,"b":"t","c":"t","d":false},"d":null}
p /a/c 1; c /b/d; p /d/c/b null; e {"b":5,"c":"t"}; e false
p / -7; u /a/d/a "x", /b/c true, /c/a {"b":true}, /d null; c /a/c/d; p /a/c/b {".sv":"timestamp"}; u /c/a "x", /c/b/c "x", /c/d/a {"a":"x","b":{".sv":"timestamp"},"c":1,"d":{".sv":"timestamp"}}, /d/b/c "x"; e {"a":null,"b":"t","c":false,"d":{"a":null,"d":5}}
p /a {"a":1,"c":true,"d":"x"}; p /d/a/a/d "x"; p /d/a/b/c null; c /b/b/b; p /d/d/d -7; p /a/b/a "x"; p /d/b/a 1; p / true; c /; e {"a":{"a":"t","b":null,"d":"t"},"c":{"d":null},"d":{"b":false,"d":null}}
p /a/b/b/d {"b":null}; e "t"; p /d/a "x"; p /a -7; c /b/d/c/a; c /b; p /c/b/d {"a":{".sv":"timestamp"},"d":"x"}; c /b; p /d/d/a/a true; p /c/d/c/b 1; e {"b":{"a":null,"b":"t","c":"t"},"c":{"a":"t","c":5,"d":5},"d":5}
c /d; p / null; c /b/a/a/a; p /a/c "x"; c /b/d; c /d/d; p /b/d/b {"a":{".sv":"timestamp"}}; p /d {"a":1,"b":1,"d":{".sv":"timestamp"}}; e {"a":null,"c":{"c":false,"d":null},"d":{"c":false,"d":false}}
p /a/b/d "x"; c /; c /a/c; e 5
c /d; p /a "x"; u /b/a {"a":{".sv":"timestamp"},"c":true,"d":-7}, /c/d null, /d/a/a -7, /d/c {".sv":"timestamp"}; e {"a":{"a":null,"b":5,"c":5,"d":null},"b":null,"c":{"a":false,"b":"t"},"d":false}
p / true; c /a; e "t"; e {"d":false}
u /c "x", /d/b/a -7, /d/c/b true; e {"a":{"a":null,"b":"t","c":false},"b":{"b":5,"c":5,"d":5},"c":{"b":"t","c":5},"d":{"b":false,"c":5,"d":null}}; c /a; u /a {".sv":"timestamp"}, /c/a -7; c /a; p / 1; u /a/a {"a":null,"b":1,"d":{".sv":"timestamp"}}, /b/d/a null, /c/d/b {".sv":"timestamp"}, /d/d/a -7; p /a/c/b/b {"b":1,"d":{".sv":"timestamp"}}; p /c/d/b/d {"a":-7,"d":{".sv":"timestamp"}}; e null
c /b; c /b/d; p / {"a":null,"c":1}; c /; c /; e {"a":{"a":5,"b":null},"b":{"a":false,"b":5},"d":false}
p / 1; p /c/a/c/a {"c":true}; e {"a":{"a":false,"b":5},"b":{"a":null,"b":5,"d":"t"},"d":{"a":5,"c":5}}; p /b {"a":"x","b":true}; c /d/a; u /a/a 1, /d null; p / {"b":true,"d":{".sv":"timestamp"}}; e "t"
u /a {".sv":"timestamp"}, /b/a {".sv":"timestamp"}, /d true; c /d/b; c /c; p /d/c/b {"d":{".sv":"timestamp"}}; c /; c /b; e "t"
c /b/c/d; p /c/d/d/a "x"; p /d/b/c/b 1; c /b/d/c/d; c /d/c/a/b; e false; u /b/d/b {"a":true,"b":"x","c":-7,"d":1}, /c {"c":"x"}, /d -7; c /d/b/c/b; e {"a":false,"d":"t"}
u /b/d/a "x", /c {"b":{".sv":"timestamp"}}, /d/c {"a":-7,"c":-7}; c /; p / {"a":{".sv":"timestamp"},"c":{".sv":"timestamp"}}; p / 1; p /c -7; c /b/a; p /a/b/a/a 1; p /d/a/d/a {"a":true,"b":"x","c":-7}; c /b/a; e 5
u /a 1, /b/c/a {".sv":"timestamp"}, /d/a/c "x", /d/d/b {"a":{".sv":"timestamp"},"b":{".sv":"timestamp"},"d":{".sv":"timestamp"}}; u /a/a null, /a/c/b -7, /c/c/a {".sv":"timestamp"}, /c/c/b true; e {"a":{"a":5},"d":{"b":"t","c":false,"d":"t"}}
p / true; p / true; e {"a":{"a":"t","c":false,"d":"t"},"b":null,"c":{"a":null,"b":"t"},"d":{"a":5,"b":5,"d":null}}
u /b/c/c 1, /b/d true, /d {"b":true,"c":"x","d":{".sv":"timestamp"}}; p /a/b/c/c -7; p /d/a/d 1; e {"a":{"a":5,"b":5,"c":5,"d":false}}
p /c/c/c/c "x"; c /; p /a {"c":-7}; c /a; p /c/b {"a":{".sv":"timestamp"},"b":null,"c":-7,"d":true}; e null
p /d/a/d "x"; p /d {"b":{".sv":"timestamp"},"c":null}; p /b -7; e "t"
e {"a":{"b":5,"c":null,"d":null},"c":null,"d":{"a":"t","b":null}}; p /a/a/d/b "x"; p / -7; p /a/a {"b":-7,"d":-7}; p /c/a/b {".sv":"timestamp"}; p /b/a/a null; e {"b":{"a":5,"b":"t"},"d":{"c":"t"}}
p /b/d {"c":"x","d":1}; p /c/c/a/a {"b":true,"c":1,"d":{".sv":"timestamp"}}; e 5
p /b true; p /b/a/d/c {"b":null,"d":-7}; p /a/b/c/b {".sv":"timestamp"}; c /a/a/b/d; p /a {".sv":"timestamp"}; p /d/c/a {"a":true,"c":-7,"d":null}; c /b; p /a/a/d/d {"b":1,"c":true}; e {"c":{"a":null,"b":false,"c":false,"d":5}}
p /d/a/c 1; u /b/b "x", /c/a/c {".sv":"timestamp"}, /d -7; e {"a":{"a":5,"c":5},"c":null,"d":{"c":null,"d":"t"}}
p /a/b/d/a {"b":1,"c":true,"d":"x"}; c /d/c/b; u /a/c/a {"a":-7,"b":-7,"d":-7}, /b/d/a {"d":-7}, /c {".sv":"timestamp"}, /d/a "x"; c /b; p /c/d 1; p /a/b 1; e {"a":{"a":false,"b":"t","d":"t"},"b":{"c":false,"d":false},"c":{"a":false,"c":null,"d":"t"}}; p /c/d/c/a "x"; c /a/c/b; e {"a":{"a":"t","b":"t","c":null},"b":{"a":5,"b":5,"c":null},"d":"t"}; e null
p /b/b/a true; c /; e {"a":null,"c":false}
e false; u /c/b/a {".sv":"timestamp"}, /c/b/d 1, /d null; p /d -7; c /a/c/c/d; p / null; e {"a":{"a":5,"c":"t","d":false},"b":{"a":null,"b":5,"d":"t"},"d":{"a":"t","c":null,"d":null}}; p / "x"; p /a {"b":{".sv":"timestamp"},"d":1}; e {"b":{"a":false,"b":false,"d":null},"d":null}
c /a/b/b; c /d/b; c /b/d/a/a; p /a/d {"d":null}; p /a "x"; c /d/b/a/b; u /a/c/d true, /b/b/d {"b":1,"d":1}, /c/c -7, /d/d true; c /; e {"a":{"b":false,"c":"t","d":null},"b":{"a":5,"d":null},"c":{"a":false,"b":null,"c":false}}
p / {"a":1,"c":-7}; c /b; p / 1; p /d {".sv":"timestamp"}; u /b {"a":-7,"b":1,"c":1,"d":"x"}, /c/b/a {"b":1}; p /c/b/a null; e "t"
c /c/a/d/d; e {"a":"t","b":"t","c":{"a":"t","c":false},"d":false}; p /a/d {"b":null}; p /d/d 1; e {"a":{"a":5,"b":null,"d":null},"c":{"a":"t","b":5,"c":"t","d":false},"d":{"a":"t","c":"t","d":false}}
p /c {"a":null,"d":true}; c /d/b/d/b; c /b/d/a; p /b/a/d {"a":true,"c":null}; p /a/b null; u /b/b/d -7, /d "x"; p /b/c/b/b null; u /a/c null, /b {"c":1}, /c null, /d/b/a {"b":true,"d":{".sv":"timestamp"}}; p /b 1; e {"a":{"a":5,"b":null},"c":{"a":null,"c":null,"d":"t"},"d":"t"}
e null; e 5
p /c/b/a/c null; e {"a":5,"d":{"a":null,"b":"t"}}
c /; p /b/c {".sv":"timestamp"}; p /d/a/b null; p /c null; e "t"
e {"a":{"b":"t","d":5},"b":{"c":"t"}}; c /d/b; c /a; p /b/a true; p / null; p /c {"d":-7}; p /c/a/b 1; c /c/c; p /b/c/b/a {".sv":"timestamp"}; e {"a":{"c":"t"},"b":{"b":5,"c":false},"c":{"d":null}}
p /c/d {"a":true,"c":-7}; p /c/c {"a":-7,"b":{".sv":"timestamp"},"d":1}; u /a/a/d {"a":1,"b":true}, /b -7, /c {"a":null,"b":{".sv":"timestamp"},"c":"x"}; p /a/a/c {"c":true,"d":-7}; p /c/c/b -7; c /a/c; c /b; p /b/b {"a":-7,"b":-7,"d":{".sv":"timestamp"}}; e false
p /a/a 1; c /b/c/a; u /a/b/c {".sv":"timestamp"}, /b/d/b true, /d/c 1; p /c {"d":"x"}; p / true; p /a {"a":-7,"b":-7}; p /b/b/d 1; e {"a":null,"b":null,"c":{"b":false,"c":"t","d":null},"d":null}
c /b; e {"c":{"a":"t","c":false}}; p /b/c null; p /c "x"; c /; e null
c /a/a/c; c /d/b/c/c; c /a; p /a/d "x"; e {"a":false,"c":{"b":null},"d":{"a":"t","c":5,"d":false}}; e false
p /c/a {".sv":"timestamp"}; p /b 1; c /d/c; e {"a":"t","b":{"a":"t","b":false,"d":"t"},"c":{"b":"t"}}; p /a/a {"a":true,"c":1}; c /a/b; p /d/d/b/c -7; p /d/b {".sv":"timestamp"}; e null
c /a/d/c/a; c /d/d/a/d; c /a/d/a/a; e "t"; c /; p /c/c "x"; c /b/c/a; e {"a":{"a":5},"c":{"a":null,"b":5,"d":null},"d":"t"}
p /c/c null; c /c/c/d/a; u /b {"a":true,"b":"x","c":true,"d":-7}, /d {".sv":"timestamp"}; p /c null; p /c/c/b {"b":true,"c":null}; p / {"b":-7,"c":{".sv":"timestamp"},"d":null}; p /b/d/c "x"; p /d/d -7; c /d/b/c/d; e false
p /b/c {"b":"x"}; p /b/a/d/c {".sv":"timestamp"}; p /a/b {"a":1,"b":"x","d":-7}; p /c/c/d {"a":1,"b":1,"d":true}; p / null; c /b/c; p /c "x"; e {"a":"t","b":null}
p /a/a/d null; c /; c /d; c /d/b; c /d/b; e {"a":{"a":5,"d":5},"c":false,"d":{"c":5}}
p / {"c":"x","d":{".sv":"timestamp"}}; p /a/d/d/b null; p / "x"; c /c; c /; c /b; p / null; e 5; u /a/c/a null, /b/b/c true, /d {"a":true,"b":"x"}; e {"a":{"a":null,"b":5,"c":5},"b":null}
c /a; u /a/a null, /a/d {"b":true,"d":"x"}, /b/b -7, /c/d {".sv":"timestamp"}; c /c; p / 1; c /a/a; c /d; u /a/a/d {"c":"x","d":null}, /a/d/a null, /d -7; p /b/c/d "x"; u /a true, /b/a {"a":true,"b":true,"d":null}, /c/b/b -7; u /a "x", /b -7, /c/d null, /d/c/d {".sv":"timestamp"}; e null
u /a/d/a null, /c/b {"a":-7,"b":"x","c":1,"d":null}, /d/b/b {".sv":"timestamp"}, /d/d/c 1; c /a/b/b/c; e {"a":{"a":5,"d":5},"b":{"a":null},"c":null}; e null
u /a/d/a {"b":null,"c":true}, /a/d/b {"a":{".sv":"timestamp"},"b":"x"}, /b {"a":{".sv":"timestamp"},"d":-7}, /c/a/d {".sv":"timestamp"}; u /a/a/a null, /b/a/b null, /c -7, /d 1; e {"b":{"a":null,"b":null,"c":null,"d":null},"c":{"a":"t","c":false},"d":"t"}
u /a "x", /b/a {".sv":"timestamp"}, /c/c {"a":{".sv":"timestamp"},"b":-7,"c":true}, /d/d/c {"c":"x"}; c /a/c; p /a/b {"a":1}; p / {"a":{".sv":"timestamp"},"d":{".sv":"timestamp"}}; p /d null; p /c/b/c/c {"a":"x","b":-7,"c":null}; u /b "x", /c true, /d/b -7; c /b; c /d; c /; e false
p /c {"a":null,"b":-7,"c":1,"d":{".sv":"timestamp"}}; p /a/a/c/d -7; c /a/d/c/c; p /c/c "x"; u /a/b {"a":true,"b":true,"c":-7,"d":"x"}, /a/d {"a":1}, /c {".sv":"timestamp"}; c /b/d/d; c /b/d/a/b; p /a/c/d/b true; c /c; e {"a":{"a":5,"c":null},"c":false,"d":{"a":null,"b":5,"d":false}}
p /a/a/c/c {"a":"x","c":null}; p / -7; p /b true; u /a/c/c 1, /a/d 1, /b/d {".sv":"timestamp"}, /d/c/c 1; p /a/a/a/a true; u /a -7, /b/b {".sv":"timestamp"}; u /a/c {"a":true,"d":-7}, /c/d/d true, /d 1; c /b/b/d; e null
e {"b":{"b":null,"c":false,"d":false},"d":{"a":5,"b":false}}; p /d/a/c/c null; p /a/c/a/c true; e {"a":{"c":"t"},"b":{"c":false},"d":{"a":null,"b":false,"c":5,"d":5}}; p / {".sv":"timestamp"}; p /a/a/b/c {"a":-7,"c":{".sv":"timestamp"},"d":null}; e null
e {"b":"t"}; p /a/c/a "x"; c /c/a; c /; e 5
c /; e {"b":null,"c":"t"}
p /a/c -7; u /c/a true, /c/b null, /c/d {"a":-7,"c":-7}; p /b/a/d/b {"a":null,"b":{".sv":"timestamp"}}; p /b/c/c/b {".sv":"timestamp"}; c /c/b/d/d; c /; p /c "x"; p /b {"a":null,"c":1}; p /c/d/a true; p /d {"a":null,"b":1,"c":null}; e null
p /c/a/b/a -7; e false; c /c; p /b/c true; c /c/a/d/b; c /; u /a/b/d {".sv":"timestamp"}, /b/c 1, /c/a {".sv":"timestamp"}, /c/c/c true; p /c null; p /d/c/d/d {"a":true}; e false
p / true; c /; c /d; c /a; p /a {"c":true,"d":-7}; u /b/b/c {"a":true,"c":1,"d":"x"}, /b/d/c null, /c -7, /d {"b":-7}; u /c/b -7, /c/c/a -7, /d/a {".sv":"timestamp"}, /d/d/a {"b":null}; c /d/b/d; p /d/b -7; e {"a":null,"b":{"a":"t","b":false,"d":5}}
p / "x"; p / {"c":1}; p / 1; p /b 1; e {"a":{"a":"t","d":null},"c":{"a":null,"b":false},"d":{"c":"t"}}
p / {"a":"x","b":null}; p /a/c/d/c {"b":true,"c":-7}; c /d/b/a; p /c/b/c null; p /a/a/b/a {"b":-7,"c":1}; e {"a":{"a":"t","c":null,"d":5},"b":false}; p / {".sv":"timestamp"}; p /b {"b":1,"c":-7,"d":null}; p /a null; e "t"
e {"a":{"b":null,"c":null,"d":"t"},"c":{"a":"t","b":false,"c":5},"d":{"b":"t","d":5}}; c /b/d/d/b; e {"b":{"a":null,"b":"t"}}
c /; p /a/c/c {"a":"x","b":true,"c":1}; c /b/c/b/c; c /a/d/d; c /b; e {"b":{"b":null,"c":"t","d":"t"},"d":{"b":"t","d":null}}
u /a true, /c "x", /d/b/a null; e 5; p /b/a true; u /a/d -7, /b/c/a {"a":{".sv":"timestamp"},"c":{".sv":"timestamp"},"d":true}, /c null; c /b/a/a; p / {".sv":"timestamp"}; e {"b":{"a":"t","c":false},"d":{"a":"t","b":"t","d":null}}; c /; u /a/c/c "x", /b/c/b 1, /c true, /d -7; e {"c":false}
p /d/a/c/d "x"; u /b -7, /d/a/b {".sv":"timestamp"}, /d/d {".sv":"timestamp"}; c /d/a/a; p / true; p /a {"b":"x"}; p /c/a/d true; p /d 1; p / "x"; e {"a":{"a":"t","b":"t","c":null},"c":5}
p /b 1; e {"a":5,"b":null,"c":{"a":null,"b":"t"}}
p / null; p /c/a "x"; p / {"b":true,"d":{".sv":"timestamp"}}; u /a {"a":true,"b":"x","d":null}, /b null, /c null; c /b; p /c/a/d -7; p /d/d/c true; p /b/a/d/a -7; u /a {"a":true,"b":{".sv":"timestamp"},"c":null}, /b -7; e {"a":{"b":false,"c":5},"d":{"a":null,"c":false,"d":null}}
c /a/b; p /b/d/c/a {"c":true,"d":-7}; p /c {"a":"x","b":-7,"c":"x"}; p /c/d/d "x"; c /d/d/c/c; p / 1; p /c/c -7; e null
p /a/c/b/b null; c /a/b; e false
p / null; p /b/b/d/a {"b":null,"d":{".sv":"timestamp"}}; p /b/b/b/c null; p /b/b/d/c {"a":"x","d":"x"}; p /d/d/c/c 1; u /a/d/a {".sv":"timestamp"}, /c true, /d -7; e {"a":false,"b":{"a":"t","b":false,"c":"t","d":false},"c":{"b":false,"c":false,"d":"t"}}
u /c/b -7, /d "x"; u /b null, /c {"a":"x","d":1}; p /a/c/c/a {".sv":"timestamp"}; p /c/b/b/d {"d":{".sv":"timestamp"}}; c /d; c /a/b/a/d; p /b/a/d -7; p /a {"c":"x","d":null}; e {"a":{"a":false,"b":false,"c":"t","d":null},"b":{"a":5,"b":"t","c":5,"d":"t"}}
c /b/b/a; e {"a":{"a":"t","b":false,"c":"t","d":false},"b":false,"d":{"b":"t","d":null}}
c /a/b/b/b; e 5
e {"b":{"a":false},"c":false,"d":{"a":"t","b":5}}; u /b 1, /c {"a":null,"b":true,"c":null,"d":"x"}, /d/c/c "x"; p /d/a/d/d -7; e {"c":{"b":"t","c":"t","d":5}}; p /b/a/b null; c /a/a/d; u /b/b/c {"a":1,"c":null}, /c 1, /d/b 1, /d/c/d {"b":"x"}; u /a/b -7, /a/c/b {"a":"x","b":"x","d":null}, /a/d "x", /d/b "x"; u /c/b/c {"a":true,"b":{".sv":"timestamp"},"d":null}, /c/c/c null, /c/d/b {".sv":"timestamp"}, /d/b/b {"a":null,"c":-7,"d":null}; p /d/d/a/a 1; e false
u /a/c 1, /b/c true, /c {"a":true,"b":null,"c":null,"d":"x"}; c /d/c/a; p /a/c {"b":true}; p /a/a {".sv":"timestamp"}; p /c "x"; c /d/d; u /b/a null, /b/d {"d":1}, /c/b {"a":-7}; u /b {"c":null,"d":-7}, /c/d "x", /d/d {".sv":"timestamp"}; p /c {"a":{".sv":"timestamp"},"c":-7}; e {"b":{"a":"t"}}; e {"a":{"b":"t","c":5},"b":"t","c":{"a":5,"b":5},"d":{"a":false,"b":5,"d":false}}
u /a/a "x", /b {".sv":"timestamp"}, /c/d/b {"a":1,"d":-7}, /c/d/c "x"; c /c/b/b; c /b/b; p /c/a {"c":-7}; p / 1; p /d/a/c/d "x"; p /a "x"; e "t"
u /b/a/d "x", /d/b {".sv":"timestamp"}, /d/c 1, /d/d -7; p /c/d/b/c null; e {"a":{"a":false,"b":5,"d":"t"},"b":{"b":null,"c":"t","d":false},"c":false,"d":{"d":null}}
p /d "x"; p / {".sv":"timestamp"}; p /a/b/d true; p /c/d "x"; p /d/c {"a":"x","c":true}; u /a/c {"b":{".sv":"timestamp"},"c":-7,"d":-7}, /b/b/d 1, /d 1; u /a/c null, /b {"b":true,"d":true}, /d null; p /d/d/d/a {"a":true,"d":"x"}; p /a null; e {"a":false,"b":{"a":null,"b":"t","c":null,"d":false},"c":{"c":null,"d":false}}
p / {"b":"x","d":{".sv":"timestamp"}}; e {"b":{"a":null,"c":false},"d":"t"}
p / -7; e {"c":{"a":"t","b":null,"c":null},"d":{"a":false,"b":false,"c":false,"d":null}}
c /d/b; e false
p /a/a/b 1; u /b 1, /c true, /d/d "x"; c /b/c; c /b/a; e null
p /d -7; p /a/d/c/b {".sv":"timestamp"}; p / {".sv":"timestamp"}; c /c/b/b; u /a {"b":-7}, /d/b {"d":"x"}, /d/c/c true; p /c/c {"a":1}; c /d/b/d/b; e null
p /b/a/a/b null; c /; e {"a":"t","b":null,"c":{"c":null},"d":{"a":false,"c":5}}; p /a -7; p /b/a/a/a -7; p /c {"a":-7,"c":{".sv":"timestamp"},"d":null}; c /c; e null; c /c/d; c /a/c/a; e null
p / {"a":-7,"b":{".sv":"timestamp"},"d":{".sv":"timestamp"}}; e {"a":false,"b":{"c":null,"d":false}}
p /a/c true; e "t"; u /a "x", /b {"b":"x","d":1}; e {"a":{"b":false,"c":false},"b":false,"c":{"a":false,"d":5}}
p /a/c/d {"a":null,"d":{".sv":"timestamp"}}; p /d -7; p / {"a":1,"c":true}; p /a/d 1; e {"a":null,"b":{"a":5,"c":"t","d":"t"},"c":false}; e {"a":{"c":null},"c":"t","d":{"c":"t","d":5}}
e null; e {"a":{"a":5,"b":"t"},"b":{"b":null,"c":false,"d":null},"d":{"b":"t","c":null,"d":5}}; e null
e 5; c /d/a; p /c/d null; e "t"; u /a 1, /b/a/d 1, /b/d {"a":"x","c":true,"d":-7}; e {"a":{"a":null,"c":false,"d":5},"c":{"b":null,"c":null,"d":"t"}}
c /a/d; u /a/a/a 1, /a/b/b {"a":1,"c":-7,"d":{".sv":"timestamp"}}, /b/d null, /c -7; e {"a":{"a":false,"c":"t","d":"t"},"d":5}; c /; c /b/b/d; u /a/c/c {"a":1,"d":true}, /c/d/a null, /d {".sv":"timestamp"}; p / {"a":-7,"b":null}; p /d/b/a/d 1; e {"b":{"a":"t","c":5,"d":false},"c":5,"d":{"b":null,"c":"t"}}
c /; p /d/a null; c /d; c /; u /a/b "x", /c -7, /d {"a":"x","b":"x","c":-7,"d":{".sv":"timestamp"}}; p /b/b/d/d {".sv":"timestamp"}; p /d/c {"a":"x","b":1,"c":null}; u /a/c/c {"d":{".sv":"timestamp"}}, /b/a/a null, /b/b/c {"b":-7,"d":1}, /c/d null; e {"b":{"a":5,"b":null,"c":null},"d":null}
256 p /a/% -7; u /a {".sv":"timestamp"}, /b null, /c {".sv":"timestamp"}; p /c/b/c/a 1; p /c/d/c {"a":1,"b":1,"c":{".sv":"timestamp"}}; c /a/b/d; e {"a":"t","b":"t"}
p /c/d/c 1; p /b null; c /d/b/b/a; p /c/b/a/a {"c":-7,"d":null}; p / 1; e {"c":{"a":5,"b":5,"d":false},"d":{"a":null,"b":null,"c":"t","d":null}}
p /a/a/d {"a":"x","d":1}; p /b/a/c {".sv":"timestamp"}; c /a/d; c /b/c; e {"a":"t","b":5,"c":{"a":null,"d":5}}
c /a; u /a null, /c/d "x", /d/c/b {"b":{".sv":"timestamp"},"c":1}; p /c/c/d "x"; p /c/a/d/a {"a":1,"b":true,"d":"x"}; p / {"a":1,"b":1,"c":1,"d":null}; p / -7; p /b/a/c/a {"a":true}; p /c {"a":true,"b":"x","d":{".sv":"timestamp"}}; c /b; u /a/c {"a":{".sv":"timestamp"},"b":1}, /a/d/d 1, /d true; e {"a":{"a":5,"b":"t","c":null,"d":"t"},"b":{"a":null,"c":"t","d":null},"c":null}
e "t"; p / -7; c /b/a/d/a; c /; c /; e {"b":{"c":"t","d":"t"},"d":false}; e 5
p /a/d/c {"b":true,"c":true,"d":"x"}; c /d/c/c; p / {"a":1,"b":{".sv":"timestamp"},"d":true}; p /d/c/c -7; e false
c /b; p / {".sv":"timestamp"}; p /c "x"; p /c/d/d "x"; c /b; p /a 1; e 5; c /b/b; u /a -7, /b/c true, /c/d/a {"a":true,"d":"x"}, /d/c/d true; c /d; e null
c /d/a; p /c/b -7; p /d/b 1; p /d/d/c/b {"a":null,"d":-7}; u /a/c 1, /a/d 1, /c/c/d {".sv":"timestamp"}; e {"b":null,"c":{"a":false,"b":"t","d":5}}
p /b/a/a true; u /a/b/c {"a":null,"b":true,"c":{".sv":"timestamp"}}, /d 1; p /b null; c /b/a/a/a; c /c/c; p /a {".sv":"timestamp"}; u /a {"a":true,"b":1,"d":"x"}, /b "x", /c/c/c "x"; p / -7; c /c; u /b "x", /c {"b":null,"d":-7}, /d/a -7; e false
p /c/c/c/a "x"; e null
c /d; c /b/b; e false
200 p /a/% true; e null; c /c/d/b/d; p /d {"b":null,"d":1}; p /a/b/b "x"; e {"a":{"c":"t"},"b":null,"d":false}
p /b/b/c/a {"a":{".sv":"timestamp"}}; u /a/b true, /b/b/a {"a":1,"c":-7}, /d null; p /d true; e null; p /c/d null; e {"a":"t","b":null,"d":{"a":null,"d":null}}; e {"b":5,"c":{"b":5,"c":false},"d":null}; p /d/a/a/c {".sv":"timestamp"}; e {"a":{"a":5,"c":null,"d":5},"c":{"a":null,"b":"t","c":5,"d":5}}
p /b/d/c/c -7; u /a/c/c "x", /b {"a":{".sv":"timestamp"},"b":-7,"d":"x"}, /d/b/d "x"; p /a/c/c/c -7; u /a/b null, /b null, /c true; c /b/d; e "t"
c /c/b; u /b {"a":-7,"d":{".sv":"timestamp"}}; e 5
p /d {"d":-7}; p / {"b":1}; e {"a":{"a":"t","b":5,"c":null},"b":{"a":5,"b":null},"d":{"a":null,"b":false}}; p /b/b/a/c -7; e {"d":{"a":null,"b":"t","d":false}}; c /; c /c/a/a; p /b/c true; e null
e {"c":"t","d":{"c":false}}; p /a/a/c/d -7; c /c/c; p / true; e {"a":{"a":5,"b":false,"d":false},"c":false}
u /a -7, /b/c "x", /c/a null; c /c/b/c/c; p /a {"c":-7,"d":{".sv":"timestamp"}}; p /b/c true; c /; p /a/d/a/d -7; p /c/a/d 1; p /a {"a":"x","c":-7,"d":"x"}; p /c/b/d/d true; e false
p /a/d/a {"b":"x","c":-7}; p /a/a/a/a {"a":true,"d":"x"}; e {"a":{"a":false,"c":null},"c":{"d":"t"}}
p /c true; p /a/a/d/c null; p /a/d/a {"b":true,"c":1}; u /b {"b":{".sv":"timestamp"},"d":"x"}, /c true, /d {"b":1}; p /c/c {"b":true,"c":-7,"d":{".sv":"timestamp"}}; c /; e {"a":null,"b":false}
u /b/a/a {"c":true}, /b/d/a -7, /c/d/d 1; p /c null; p / {".sv":"timestamp"}; p /d/a -7; u /d null; c /; c /a/c/b; p /d/a {"b":null,"d":null}; c /a; e {"a":false,"c":false,"d":{"a":null,"d":"t"}}
c /a/b; p /b/a/a {".sv":"timestamp"}; p /b/b "x"; u /a/a/d 1, /a/c null, /b/a/c {"a":-7}, /c/c -7; c /; p /c/d/d/d 1; p /b/b "x"; e null
c /; e null
c /; p /a/d {".sv":"timestamp"}; c /b; e null
c /; p /d -7; p / {"b":"x","d":true}; e "t"; e {"a":{"b":false,"d":null}}
e "t"; c /d/b/c/c; c /d; p / null; c /c/c/a/b; e {"a":false,"b":"t","c":{"a":"t"},"d":{"a":"t","b":"t","d":false}}
u /b {"b":{".sv":"timestamp"},"c":{".sv":"timestamp"},"d":"x"}, /d null; c /a; e false; p /a/d {".sv":"timestamp"}; e null
p /c/a/a/a {"c":"x","d":-7}; p / 1; u /b "x", /d -7; p / {"b":{".sv":"timestamp"},"c":{".sv":"timestamp"}}; p /a/d/d -7; c /b/d/a/c; c /a; p /a/b/b "x"; c /a/d/b/d; e false
u /a/b null, /b null, /c -7; p /d/a 1; e null
p /b/c/b -7; p /a/a/a {"a":1,"d":-7}; u /a/d {".sv":"timestamp"}, /d -7; p /a {".sv":"timestamp"}; p / 1; e {"b":{"a":5,"d":null},"d":{"a":false,"b":false}}
c /b/d/b; e false
p /b/d/a/a null; c /c; p /c/b/c {"a":null,"b":true,"c":-7,"d":{".sv":"timestamp"}}; p /d/b 1; u /b {".sv":"timestamp"}, /c/a/c true, /c/a/d null; e {"a":{"a":false,"b":"t","c":5,"d":"t"},"c":{"a":5,"b":5,"d":null}}; e {"a":{"b":5,"d":5},"b":{"a":false,"b":"t","d":false},"d":{"a":false,"b":null,"c":"t","d":"t"}}
p /b 1; p / null; c /d; u /a/d -7, /c/b/b {".sv":"timestamp"}, /d {".sv":"timestamp"}; e 5
p /b/a 1; e {"b":false,"c":{"c":"t"}}
u /a null, /c/b/d {"a":null,"b":-7}, /d/c/c {"a":1,"b":-7}, /d/d/d -7; c /; c /b/a/c; u /c/a/c {"a":null,"b":1}, /c/c {".sv":"timestamp"}, /d -7; p /c -7; p / null; e false; p /b true; c /a/b; e {"a":{"b":null,"c":5,"d":false},"b":{"b":false,"c":"t","d":5},"d":5}; e {"a":{"b":"t","c":"t","d":"t"},"d":{"a":null,"b":"t","c":null}}
p /a {"c":{".sv":"timestamp"}}; p /d/c/b/b {"a":-7}; c /d/c/b; u /a/d 1, /b "x"; c /b/a/d/b; c /c; e {"a":"t","b":{"c":false,"d":"t"},"c":{"b":false,"c":5}}
p /a/c/a/d "x"; u /a {"d":"x"}, /d/b null, /d/c/c {"c":{".sv":"timestamp"}}; p /c true; u /b -7; e {"b":"t"}
p /c/d/c -7; e null; c /; c /d/b/a; c /a; p / -7; c /c/d/d; p /a/b/c {".sv":"timestamp"}; p /d {".sv":"timestamp"}; e {"b":{"b":"t","d":5},"c":{"a":"t","b":null,"d":null}}
c /d; p / {"d":-7}; p /b "x"; u /b -7, /d/d/c true; p /b/a/b {"a":1,"b":"x","c":-7}; p /b/a/b true; e 5
e {"b":{"a":false,"b":"t","c":5},"c":false}; e {"a":{"a":"t","b":5,"c":5},"b":"t"}; c /b/a/a; e 5
p /c/c -7; p /a {"a":{".sv":"timestamp"},"b":"x","d":"x"}; c /d/d/c/d; p /d "x"; e {"a":{"a":false,"b":"t","c":"t","d":"t"},"c":{"a":"t","c":false,"d":"t"}}; u /c/b/a true, /c/c null, /d 1; p /a "x"; u /a/a/c -7, /b true, /d "x"; e {"a":{"a":false,"b":null,"c":false,"d":"t"}}; p / null; e null
u /b "x", /c {"c":{".sv":"timestamp"},"d":true}, /d "x"; c /d/a/a/d; p /d {"a":null,"b":-7}; c /c/b/d/c; p /c/a {"a":null,"b":null}; p /c/d -7; p / -7; p /d true; p /d/b/d {"a":-7,"d":{".sv":"timestamp"}}; c /a; e {"b":{"b":"t","c":false,"d":"t"},"c":{"b":"t","d":null},"d":{"a":null,"c":null,"d":false}}
u /a/b null, /a/c 1, /b/d/c true, /c {"b":-7,"d":-7}; p /a/a/d null; c /a/d/b/c; p /a/c/a {"a":-7,"d":null}; c /b/a; e false
e 5; u /a/b -7, /b {"a":true,"b":"x","c":null}, /c/d/c {"a":true,"b":true,"d":1}, /d {"a":"x","b":1}; c /d/d; c /b/d; u /b/b {".sv":"timestamp"}, /b/c true, /c/a/c null, /c/c -7; e {"a":{"a":null,"d":"t"},"b":5}
p / {"a":{".sv":"timestamp"},"c":"x","d":"x"}; c /b/c; p /b {".sv":"timestamp"}; c /; p /c {"b":true,"d":"x"}; e {"a":{"b":false},"b":{"a":false,"b":"t","c":null,"d":5},"d":{"a":null,"b":5}}
p /b 1; p /d/d/b 1; p /c "x"; u /b/d/c {"b":"x","d":true}, /b/d/d 1, /c/c true, /c/d {"c":{".sv":"timestamp"},"d":"x"}; e {"b":{"a":false,"d":null},"c":{"a":false,"b":5,"c":null,"d":null}}; p /b/c/d {".sv":"timestamp"}; e {"b":null,"d":null}; c /a; e false
p / 1; c /c/d/d; e {"d":false}
c /c/d/b/b; c /b/a; c /b/c/c/d; e false
p /c null; p /a/b/b "x"; u /a/d "x", /b/a/a "x", /d/a {"b":true}, /d/d {".sv":"timestamp"}; u /b {"a":{".sv":"timestamp"},"b":1,"d":{".sv":"timestamp"}}, /c/b/b {".sv":"timestamp"}, /c/c null; e {"a":{"a":false,"b":false,"c":null},"c":null,"d":{"a":"t","c":false,"d":5}}
p /d/a/a 1; e {"a":{"b":null,"d":false},"b":false,"d":5}
p /c {"a":"x","b":-7}; u /b/d/d null, /c/d {".sv":"timestamp"}, /d null; u /a/c/a null, /c/b true, /d/c/d {"a":-7,"b":"x","c":-7,"d":{".sv":"timestamp"}}; p / true; e {"b":{"a":false,"b":"t","d":5},"d":{"a":5,"c":null}}; c /a/a/b; e {"c":{"b":false,"c":false,"d":false},"d":null}
e 5; c /b/b; c /b/b/d/b; p /d 1; p / true; p /c/b/b/d 1; p / {"b":-7,"c":null}; e {"c":{"a":null,"b":"t","d":"t"},"d":null}
p /a/d/b/b "x"; c /a; c /b/c/b/c; p /a/b/c/a {"d":true}; e "t"
u /b/b null, /c/a/b {".sv":"timestamp"}, /d/a/c true, /d/d {"a":1,"b":true}; p /a -7; p / "x"; c /c; p /c/b/d {".sv":"timestamp"}; p /b/b "x"; e {"a":null,"b":null,"c":{"a":"t","c":5,"d":false},"d":{"a":false,"b":"t","d":"t"}}
p /c {".sv":"timestamp"}; e {"b":{"a":"t","d":"t"},"c":"t"}
u /b 1, /c true; c /a/c; c /a/d; e {"a":{"a":"t","b":"t"},"b":false,"c":null,"d":null}
p / 1; e {"b":{"c":false,"d":false},"c":"t","d":{"a":null}}; p /d/b/d/c -7; e {"a":{"a":"t"},"b":{"a":5,"b":false,"c":"t","d":"t"},"c":{"a":null,"d":false},"d":{"a":false,"b":null,"c":null}}
e null; p / null; e {"c":{"b":null,"d":"t"}}
c /d/d/d; p /d {".sv":"timestamp"}; u /a/c/b "x", /b {"a":-7,"b":null,"c":{".sv":"timestamp"},"d":-7}, /c/d {"b":-7,"d":true}, /d/c {"a":{".sv":"timestamp"},"b":{".sv":"timestamp"},"c":"x","d":null}; c /d/b; p /a/b -7; e false
p /b/a {".sv":"timestamp"}; u /a true, /c 1; c /d/c/d/b; p /d/c/d/d 1; p /a/d/a {"a":true,"d":true}; p /c/b "x"; p /c/d/b/a 1; u /a {"a":-7,"b":true,"c":-7,"d":{".sv":"timestamp"}}, /b 1; e {"c":false}; p /b/b/c -7; e {"a":{"b":"t","d":5},"b":null,"c":{"a":null,"b":"t"}}
p /d/b/b {"b":"x","c":true}; p /c/b/d/d true; c /b/b; p / null; c /c/d/d; p /b/c/d/b 1; e false; e 5
p /d/a/b/a {"a":-7,"d":true}; u /a/b/b true, /b/b {".sv":"timestamp"}, /c/a null, /d -7; p /c/a -7; p /a "x"; c /; u /b true, /c 1; c /b/d/c; p /c true; p / -7; e false
c /c/c/d/b; e {"a":{"a":null,"b":5,"c":5},"b":"t","c":"t"}; p / true; p /d/a/c -7; u /a/a {".sv":"timestamp"}, /a/c/a {"c":-7}, /b/c 1, /d/d {"a":true,"b":"x","d":1}; p / {"c":true,"d":"x"}; e {"c":"t","d":null}
e {"a":5}; p /a true; c /b/d/b/a; e {"a":{"a":false,"b":5,"c":5,"d":5},"c":{"a":false,"b":5,"c":"t"}}
c /b; c /a; c /; e {"b":{"d":5}}; c /b; u /a {"c":{".sv":"timestamp"},"d":-7}, /b/d/a "x"; p /d {"a":1,"b":"x","c":-7,"d":true}; p /a -7; e 5
p /b true; u /b/a true, /d/b "x", /d/c/a null; p /a/a {"a":-7,"b":{".sv":"timestamp"},"d":1}; p /b/d/d {"b":-7}; e "t"
u /a {".sv":"timestamp"}, /d/a true, /d/c/b {"a":null,"b":"x"}; p / true; p /b/a/c true; u /c {"a":{".sv":"timestamp"},"b":"x","d":"x"}, /d/a/c {".sv":"timestamp"}, /d/c 1; p /c true; e null
u /c/d null, /d {"a":true,"b":"x"}; p / -7; e {"b":{"a":null,"b":"t","c":null,"d":"t"},"c":{"a":5,"c":false}}
p /b/c null; e {"a":{"c":"t"},"b":null,"c":5,"d":5}; e {"b":{"a":null,"c":false,"d":false},"d":5}; c /b/b; c /d; p /d null; e {"b":{"a":"t","d":false},"c":{"a":null,"b":null,"d":"t"},"d":{"b":5,"d":null}}
c /c/a; e {"a":{"a":null,"b":"t"},"b":null}; u /a {"a":true,"b":"x","c":1,"d":true}, /d/c true; p /c/b {"c":null}; u /a/a/d {"a":1,"b":null,"d":1}, /b/c/c true, /c null, /d {"b":{".sv":"timestamp"}}; c /c/d/c/b; e 5
p /d -7; p /a/b/c {".sv":"timestamp"}; e {"b":null,"d":{"a":"t","c":5,"d":null}}
c /d/a/a; p / -7; p /d/b/c/c {"a":{".sv":"timestamp"},"d":true}; u /a "x", /b/a/a 1, /b/d {"a":{".sv":"timestamp"},"b":true}, /d/a 1; e null
p /a/b/a null; e {"b":{"a":null,"c":null},"d":{"b":false,"c":false}}
e false; c /a/b/c/b; p / "x"; c /c/d; p /c/c -7; p /b/d/b "x"; e {"b":{"a":null,"b":null},"c":5,"d":{"a":false,"b":null,"c":5,"d":false}}; p /b {".sv":"timestamp"}; p /c/b/b {"b":"x","c":true}; c /a/a/a/c; e null
c /; p /a/a {".sv":"timestamp"}; u /a/d {"b":-7,"c":-7}, /c/b/d 1, /d 1; c /d/c/d/c; p /c/d {"d":{".sv":"timestamp"}}; p / null; e {"c":null}; e {"b":{"a":false,"d":null},"d":{"b":null,"d":5}}
c /c/d; c /d; p /a/c/a {".sv":"timestamp"}; c /; p /a/a {"b":1,"c":true,"d":"x"}; c /; u /a 1, /b/b null, /c/d/a true; p /c {"a":true,"b":true,"c":"x","d":null}; p / {"a":true,"b":true,"d":true}; p /d/a/d 1; e {"a":false,"b":{"b":5,"d":"t"},"c":{"b":5,"d":"t"},"d":{"c":"t","d":"t"}}
c /; c /a/b/b/a; p /c/a/a {"a":1,"b":"x","d":"x"}; c /d/b/d; c /a; c /d/b; c /b/b/c/b; u /a/d {".sv":"timestamp"}, /c {".sv":"timestamp"}, /d/c {".sv":"timestamp"}; p /b/a {".sv":"timestamp"}; e false; e {"a":{"a":null,"c":5,"d":null},"b":{"a":false,"d":"t"},"c":null,"d":{"a":5,"d":5}}"#;
