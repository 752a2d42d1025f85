//! 500 lists of calls, written by `bench/listener_lists.py`.

pub(crate) const LISTS: &str = "w /a; w /
on a/1.1 /; w /a; off a/1.1 /; w /a; w /
on a/1.1 /a; on a/1.1 /a; off a/1.1 /a; w /a; w /
off a/1.1 /a; drop a/1.1; on b/2.1 /a; drop a/1.1; off a/1.1 /a; w /a; w /
on a/1.1 /a/b; on a/1.2 /a; on B/1.1 /a/b/c; w /a; w /a/b; w /a/b/c; w /a/c; off a/1.1 /a/b; w /a/b/c/d; w /
on a/1.1 /a/b/c; off a/1.1 /a/b; off a/1.1 /a; w /a; off a/1.1 /a/b/c; w /a; w /
on a/1.1 /b; on b/2.1 /a; on a/1.1 /a/z; on B/1.1 /; w /a/z /b /a; w /a /a; w /c; w /
on a/1.1 /a/b/c/d/a/b/c/d/a/b/c/d/a/b/c/d/a/b/c/d/a/b/c/d/a/b/c/d/a/b/c/d; on a/1.2 /a/b/c/d/a/b/c/d/a/b/c/d/a/b/c/d/a/b/c/d/a/b/c/d/a/b/c/d/a/b/c; w /a/b/c/d/a/b/c/d/a/b/c/d/a/b/c/d/a/b/c/d/a/b/c/d/a/b/c/d/a/b/c/d; w /; off a/1.1 /a/b/c/d/a/b/c/d/a/b/c/d/a/b/c/d/a/b/c/d/a/b/c/d/a/b/c/d/a/b/c/d; w /a/b/c/d/a/b/c/d/a/b/c/d/a/b/c/d/a/b/c/d/a/b/c/d/a/b/c/d/a/b/c/d; on a/1.1 /a/b/c/d/a/b/c/d/a/b/c/d/a/b/c/d/a/b/c/d/a/b/c/d/a/b/c/d/a/b/c/d; drop a/1.2; w /a; w /
255 on a/1.1 /p/; on a/1.1 /q; on a/1.1 /r; on a/1.1 /p/7; off a/1.1 /p/7; on a/1.1 /r; w /r /q /p/7; w /
257 on a/1.1 /p; on a/1.1 /p3; on a/1.2 /p3; w /p3 /p256 /p255; drop a/1.1; w /p3; on a/1.1 /q; w /
256 on a/1.1 /a/b/; 256 on a/1.2 /a/b/; 256 on b/2.1 /a/b/; w /a/b/255/x; drop a/1.2; w /a/b/255; w /a/b/256; w /
off a/1.1 /a/c; w /b/a/c / /c/a/c; on a/1.2 /a/ab/a/a; on b/2.1 /; w /
drop B/1.1; w /c/b/ab; on a/1.2 /ab/a/c; w / /ab /; w /b/ab/ab/c /c/a/c/b; w /ab /ab/a/c/a; w /c/a /a/ab/c; off a/1.2 /a; w /
on a/10.1 /ab/c/ab/a; on b/2.1 /b; on a/1.1 /ab/b/c; on a/10.1 /ab/a/ab; on a/1.1 /b; w /
w / /; on a/1.1 /a/ab/b; on b/2.1 /ab; on a/1.2 /ab; w /
drop a/10.1; on a/10.1 /c/a/a; on a/10.1 /b/ab/a; on b/2.1 /c; w /
on B/1.1 /a; drop a/1.2; w /
off a/1.2 /b/a/c; drop a/10.1; drop B/1.1; on a/10.1 /b; w /; on a/10.1 /c; off a/1.2 /; off a/1.1 /c; w /
on a/10.1 /; on B/1.1 /b/c/a/c; w /
on b/2.1 /ab/a/b; on a/10.1 /b/ab/c/b; on a/1.1 /ab/c/b; on a/1.1 /; on a/1.2 /b/ab/ab/ab; on a/10.1 /; on b/2.1 /b/a/ab; on a/1.1 /b/b/ab; on b/2.1 /a/b/a; w /
w / /ab/a/a /a/a; on a/1.1 /; on b/2.1 /b/a/c; on a/1.2 /a; on B/1.1 /ab/ab/c/ab; on a/10.1 /; on a/10.1 /ab/c/c/ab; w /
w / /b/c; drop a/10.1; on a/1.2 /b/b; w /
on B/1.1 /; drop a/10.1; w / /b/ab; w /ab /; off b/2.1 /; on a/1.1 /c; w /
w / /ab/c /b/a/ab; on a/1.2 /b; w / /ab/b/b/b; w /
w /b/b/ab/c /b/a/b/ab /; drop B/1.1; w /
off b/2.1 /a/c/ab; on B/1.1 /; w / / /b/b; on a/10.1 /c/b/a; on a/1.1 /ab; off B/1.1 /b; w /
w /ab/b/a/a /ab/b/b/ab; on a/10.1 /ab/b/c/a; w /c/b/b/ab /b/a/c /ab/c/b; off a/1.1 /; w / /a; on a/1.2 /c/c/b; w /c/b/a/c; off B/1.1 /; drop a/10.1; w /
w /a/a/b/ab /b; on b/2.1 /ab; w /
w /ab/c/c/a; w /ab /; w /a/ab/b/a; off b/2.1 /c/ab; w /; on B/1.1 /ab/c; w /
on B/1.1 /b/a/ab; off b/2.1 /c; off b/2.1 /ab/b/c; off b/2.1 /ab; off B/1.1 /c/ab/a; on a/1.2 /a/c; w /ab/b/a /a/ab/ab/c /ab/b/c/ab; on B/1.1 /a/ab/a/c; on a/1.1 /a/b/b; w /
off a/10.1 /b/b; on a/10.1 /a/a; drop b/2.1; drop B/1.1; off a/1.1 /ab; drop b/2.1; on b/2.1 /c; off a/1.2 /ab/ab/b; w /
w /ab/c/b /b/a /c; off a/1.2 /c/b; on a/1.2 /ab/ab/c; on a/1.2 /a/a; on a/10.1 /a/b/a; w /
w / /c/ab/ab /; off a/1.2 /; w /
on B/1.1 /b; on a/10.1 /c/b/c; drop a/10.1; on a/1.1 /a; on a/1.1 /ab/c/ab; w /
on a/1.2 /; on a/1.2 /a/c/ab/b; on a/10.1 /; on a/1.1 /b/a/ab/a; on a/1.2 /; on a/1.2 /b/c; on a/10.1 /b/b; on b/2.1 /ab; w /
w /b/c/a/ab /a/ab/b/a; on a/1.2 /a/a/a; w /
off a/1.1 /a/b; off B/1.1 /c; w /ab/a/ab/ab; on a/1.1 /a/ab/ab; w / /a/c; w /ab /c/c /; on B/1.1 /a/ab/b/b; on b/2.1 /a/c; on b/2.1 /; w /
on a/10.1 /ab/ab; w / /a/b/ab/ab /a/c; w /c/a /a/b/a/c; off a/10.1 /ab; on a/10.1 /ab/c/ab; off a/1.2 /; on a/1.2 /b/a/b/c; w /
w /a/b /a/a /; w /c / /ab/c/ab/b; w /
w /ab/b/c /; w /a /c/c/a/c; off b/2.1 /a/ab/c; on a/10.1 /; off a/10.1 /ab/c; off b/2.1 /ab/c/ab; on B/1.1 /b/b/ab/a; w /c/c; on a/1.1 /; w /
on B/1.1 /ab/c; w / /ab/b/c; w /
w /ab/c/ab/ab; w /c/b /c/c/a; on a/1.2 /b; w /c /; w /
w /a/b/c/ab /; w /c/a/ab/ab /c /; w / /ab/c/c; on B/1.1 /; w /
on a/10.1 /ab/c/b; w /a/a/ab /a/c; on a/1.1 /ab; on a/1.2 /b/b/ab; on b/2.1 /a/b/c/ab; w /
on a/1.2 /ab/c/b; on b/2.1 /c; off a/1.1 /b/b; on B/1.1 /ab/a/b; w /; off a/1.1 /a; w /
off a/10.1 /ab/a/a; w /; w /ab/c / /; on a/1.2 /; on a/1.2 /a/ab/a/a; w /
256 on a/1.1 /; on a/1.2 /a/ab; on a/1.2 /ab/b/a; drop a/10.1; w /
w /c/a /c/c/c/ab /ab; off a/1.1 /; on a/1.2 /ab/a/ab; off b/2.1 /c/b; on a/1.1 /a/ab; off b/2.1 /; off B/1.1 /b; w /
drop a/1.2; on a/10.1 /ab/b; on B/1.1 /c/a/b; on b/2.1 /; w /
w /a/c/a/c /c/ab/ab/c; on B/1.1 /; w /
off a/1.1 /; w /ab/ab/ab/c; w /
w /; off a/10.1 /a; w /ab/a /c/c/c/ab; on a/10.1 /b/b/a; on a/1.1 /b/c/ab/a; w /
on a/1.2 /b/c/b; on a/10.1 /b/c; w /
on a/1.2 /c/c/a; off a/10.1 /b; on B/1.1 /; w /c/ab/b; on b/2.1 /; w /b/c/a /b/c/b/b; on a/1.2 /; w /
on b/2.1 /; off B/1.1 /a; w /a/b/c/c / /a/c/a/a; off B/1.1 /; w /
w /ab/c/b /b/ab/c/c; off B/1.1 /b/c/ab; on a/1.2 /ab/b; w /ab/b; on a/10.1 /c/ab; w /
on a/1.2 /b/b; on b/2.1 /b/c/b/b; w /
drop a/1.1; off a/1.1 /a; on B/1.1 /c/b/b; drop b/2.1; on a/1.2 /b/ab/b; drop B/1.1; on a/1.2 /ab; drop a/10.1; w /
on a/10.1 /c; on b/2.1 /a/ab/c/ab; off a/1.1 /b/b; w /b/b/c; on a/1.2 /b/ab/a; drop a/1.2; w /
drop b/2.1; off a/10.1 /; off b/2.1 /c; w /c/a /b; off B/1.1 /; on B/1.1 /ab/b/a/a; drop a/1.1; w /b; w /
off a/1.2 /ab; drop b/2.1; w / /a/b/b; w / /a/c/a/c; w /c/ab /c/a /c/a/c/ab; off a/10.1 /ab; on b/2.1 /c/c; w /a/a/a/a /ab/ab /a/ab/a/c; w /
w /a/b/ab/ab /b; w / /ab/c/ab /ab/ab; on a/1.1 /ab; w /
off b/2.1 /; on a/1.2 /c/a; on b/2.1 /b/b; on B/1.1 /; w /a/ab/ab/ab; w /ab/a/a; w /a /c/b/b/b /; off b/2.1 /; w /
on a/1.1 /c/ab; w /b/a / /a/b/ab; w /a; off a/1.2 /; w /ab/b/c; off a/10.1 /a/b/b; on b/2.1 /c/c; on B/1.1 /; w /c/ab/ab/a /b/c/c /c/c/b/ab; w /
off B/1.1 /ab/ab; on a/1.1 /c/ab/b; off a/1.2 /ab/b/c; w / /a/ab /a/ab/c/a; on a/10.1 /a/b/a/ab; on a/1.1 /ab; w /
on a/1.2 /ab/ab/ab/c; on b/2.1 /a/b/c; w /b/b/b/c; on b/2.1 /ab; w /c/c; on a/1.2 /; w /c/ab /a/ab/ab/c /; w /
off a/1.1 /ab; on a/1.2 /; on b/2.1 /b/b/ab/a; w /
on a/1.1 /a/a/a; on b/2.1 /ab/a; off b/2.1 /c; w /
off b/2.1 /b/b; on a/1.1 /c; on a/10.1 /a/a/b; off a/1.1 /b; on a/10.1 /; on a/10.1 /a; w /
on a/10.1 /a/a; on a/1.2 /a; on a/1.1 /; on a/1.2 /ab/c; w /
w /ab/c /c/c/a/c; w /a /a; w /
w /ab/c /ab/ab/ab; on B/1.1 /a/ab/b/ab; on b/2.1 /b; on a/1.2 /b; on b/2.1 /b/ab; off a/1.2 /c/ab; on a/1.2 /ab/c/a/b; drop a/1.1; w /
off a/1.1 /ab; w /ab/ab / /c; on a/10.1 /b/a/b/ab; on B/1.1 /ab; w /a/b/a/b /ab; off a/10.1 /b; on a/10.1 /c/c/c/b; off a/10.1 /c; w /b; w /
on B/1.1 /b/a; w /b / /b/ab/b; off a/1.1 /ab; w /; w /b/c / /ab/ab/ab/a; w /
w /a/b; w /ab/ab /c/a/ab; on a/10.1 /; on B/1.1 /b/ab/ab/c; off b/2.1 /b/ab; on a/1.1 /ab/b/c; w /a /a; w /c/c/ab/b /c/c/a/c /c/b/ab/a; w /
w /ab/a/c/ab; on a/1.2 /a/ab/ab; w /c/a/b /a/c/b/b /c/a/ab; on a/1.2 /b/b; w /b/c /c/ab/b /ab/b/ab/b; drop a/10.1; on B/1.1 /b/c/c/c; w /
on a/1.1 /; off a/1.2 /c/b/c; on b/2.1 /; off b/2.1 /c/c/ab; w /b/a /a/a/b/c /c/ab; w /
on B/1.1 /c/c; on a/1.1 /c; off B/1.1 /b/ab/b; w /
off a/1.2 /c; off a/1.2 /; drop B/1.1; on a/1.2 /ab/ab; w /
on B/1.1 /ab/c; on a/10.1 /a; on B/1.1 /c; on a/1.1 /ab/ab/c/ab; w /c/ab/c/c /b/b/b/b /b/a/ab/a; on a/1.1 /ab/ab; off B/1.1 /ab; w /b/a/c /b/b; w /
on a/10.1 /; on a/10.1 /; w /b/ab/b/c; on b/2.1 /ab/b/b/b; on b/2.1 /b; on b/2.1 /b/c/b/ab; off a/10.1 /a; w /
on B/1.1 /c/a/a/b; off b/2.1 /b; on a/1.2 /ab/a; on a/1.1 /c/b/b/b; w /
w /b/a; w /a/c /c/ab/b/c; w /
w /ab/b/b /; on a/1.2 /; on B/1.1 /c/a/a; on b/2.1 /; on a/10.1 /b/b/ab; w / /c/b/ab/a /a/b; off a/1.1 /b/a/ab; w /
on a/1.1 /a/c/a; on b/2.1 /a/b/c/c; on b/2.1 /c/ab/c; on a/1.2 /ab/a/a/ab; on a/1.2 /; drop b/2.1; w /
w /c/a; off b/2.1 /c/a; drop a/1.1; on b/2.1 /c/b/ab; w /a/ab/b /c/ab/b; on B/1.1 /c/c/b; on a/1.1 /c; w /ab/ab /a; w /
w /ab/ab/b /; off a/10.1 /; w /a/c; on a/10.1 /c/a/c/ab; w /
on a/1.1 /a/a/a/ab; w /b/b/b/a; w /
on a/1.2 /b/a; w /; on a/10.1 /c/c/a; on a/1.1 /c/ab/ab; off a/1.2 /b; on a/1.1 /a/c; on a/1.2 /ab; on b/2.1 /a/c/a; w /
w /c; drop B/1.1; on a/1.1 /b; w /c/b/ab/a /b; on a/1.1 /c; on b/2.1 /c/c/c/a; w /
on a/1.1 /c/c; off a/1.2 /c/c; on a/1.1 /b/ab; w / /c/ab /; w /
on B/1.1 /; on a/1.2 /c/c/b/a; on a/1.1 /a/b/a; w /
on a/1.1 /a/a; on a/1.1 /ab/ab/ab/a; off b/2.1 /ab/b; w /
w /b/b/b/ab /ab/ab; off B/1.1 /b/b; w /c/b; on b/2.1 /a/ab/c/b; on B/1.1 /c; w /c/ab; on a/1.1 /a; w /
on a/1.2 /c/a/b; on a/10.1 /ab; w /ab/a /; w /a; on a/10.1 /; on a/1.1 /a; on a/1.2 /a/c/a/b; w / /b /; on a/1.2 /a/ab; w /
off a/10.1 /c/c; off b/2.1 /ab/a/b; w /
on b/2.1 /a; off a/10.1 /b; on a/1.1 /c/a/a; on B/1.1 /c/ab/a/b; on B/1.1 /a/ab; on b/2.1 /b/b/a/b; on a/1.1 /ab/a/b; w /c/c/b/b /c/a/c/b /; w /
on a/10.1 /b/c/ab; w /b/c/a/b /ab/a/a/c; w /a/b/c; on a/1.1 /a/ab; w /b/b /ab/c/b /c/a/ab; on a/10.1 /; off a/10.1 /b; on a/1.1 /c; on B/1.1 /a/c/a; w /
on a/10.1 /; on a/1.2 /c/ab/a/c; w /
w / /; on a/1.2 /b/b/b; on a/1.1 /ab; on b/2.1 /b/a/c/b; w /c/b/a/c /c/c/ab /ab/a/a; w /
on B/1.1 /b; on B/1.1 /ab/ab/c; w /b/ab /b/ab/a/a; on B/1.1 /ab; w /a/b/c /; on a/1.1 /a/b/a; on b/2.1 /a/a/ab; on B/1.1 /ab; w /
on a/10.1 /c/ab/a; on B/1.1 /ab/c/c/c; off a/1.2 /a; w /
w /ab/b/b/a /b/c/b/ab /b/b/ab/b; w /c/c/ab / /a/a/ab/b; on B/1.1 /ab/c/ab; w /a/b/c/b; on a/1.1 /; on a/1.2 /c/ab/ab; off a/1.1 /c/b/a; w /
on b/2.1 /; off B/1.1 /; on a/1.1 /c/ab/a/ab; w / /c/a/c/c /; w /c/ab/b/c; w /c/b/c/ab /ab/a/c/c; w /c/b/a; w /
on B/1.1 /; w /c/ab; on a/1.1 /; w /c /b; on a/1.1 /; w / /a/a/ab/c /ab; on B/1.1 /b/b/c/b; on b/2.1 /b/ab/a; w /
w / /a/a/a; w /ab/c/c/a /ab; w /
off a/1.1 /c/a; w / /ab/b; on b/2.1 /b; w /ab/b/c; w /
w /a/ab; drop a/10.1; on a/1.2 /b; on a/10.1 /; w /c/a/ab; on a/1.1 /c/b/a; drop b/2.1; drop a/1.2; w /
on a/10.1 /ab/b; on a/10.1 /a/ab/a; w /ab /a /ab/ab/b; on a/1.1 /ab/ab/c; on b/2.1 /c/ab; w /b/c/ab; w /
on b/2.1 /; on a/1.2 /c/ab/c/c; w /
on b/2.1 /c; drop B/1.1; on B/1.1 /c; w /
w /b/ab /ab/c/b/c; on a/10.1 /ab; on b/2.1 /ab/c/ab/ab; on a/10.1 /b/ab; on B/1.1 /b/c/a; on a/1.2 /a/ab; w /
w /; on b/2.1 /c/b; off a/1.1 /a/c; w /
w /ab/b/a; on B/1.1 /a/c/ab/c; w /c/c; off b/2.1 /; on B/1.1 /b; off B/1.1 /; w /
drop a/1.2; on a/1.1 /a/ab; w /c/c /a/ab /; on a/10.1 /b/b/a/c; off b/2.1 /a/c; on a/10.1 /b; on b/2.1 /a/b/c; drop a/1.1; w /
on B/1.1 /b/b/b; on B/1.1 /ab/ab/b/ab; w /ab/b /ab/ab /b/b/a/a; on a/1.2 /b/b; w /
off B/1.1 /ab/b; off B/1.1 /; w /
drop B/1.1; on a/10.1 /ab/b/ab; w /b/ab/b/c /; on a/1.1 /b/c/ab; w /
w /c/c/ab /c/b/c/c; on a/1.1 /; w /ab/c /a/c/a /b/a/b; w /b /a; drop a/10.1; off a/1.2 /c/b/a; off a/1.2 /a; w /
on a/10.1 /a; w /; w /
on a/1.2 /; w /b/c/c /a /b/b/a; drop a/1.2; w /ab / /ab/a/ab/ab; on b/2.1 /c/b/b; off a/1.1 /c/ab/b; on b/2.1 /ab/b/a; w /c/b/c/ab /b/c; w /
off b/2.1 /b; off a/10.1 /; w /c /b/ab/c/a /b/a/ab; w /a/c/ab; on a/1.1 /a; w /c/c/ab/c; on b/2.1 /c/b/a; off a/1.1 /ab; on a/1.2 /b/c/b; w /
drop b/2.1; on B/1.1 /ab/b/a; off a/1.2 /b/b/b; on a/10.1 /c/b; w / /a/a/ab/a; w /a/c/b/a /ab; w /c /a/c/ab; on a/1.2 /ab/ab/a/a; w /
on a/1.2 /b/ab; w /; w /ab/a/ab /ab/a/b/a /c; on B/1.1 /; on a/10.1 /b/b/c; off a/1.1 /; w /ab / /b/b/b/c; on a/10.1 /b; w /
on a/1.1 /ab/ab/ab/a; w /c/c/ab; drop B/1.1; w /
w /b/ab/a /b/a; on a/1.1 /; off B/1.1 /; w /c/b/ab; on a/1.2 /a; w / /; w /ab; w /
w /ab/b/b/a /b/c; off B/1.1 /b/a/a; drop a/10.1; on a/10.1 /ab/c/a/b; w /ab/a/c /a/b /c/b; on b/2.1 /a/b/ab/a; w /a/b/c/b /c/a/b; on a/10.1 /ab/c/a/c; on b/2.1 /c; w /
off a/1.2 /; drop a/1.2; on a/1.2 /c; off a/1.2 /a; on b/2.1 /a/b/a/a; on a/10.1 /ab; on a/1.2 /; w /
on a/1.1 /a/c/a/ab; on a/10.1 /ab/c/c; on a/1.1 /a/a/c/a; on a/1.1 /c; w /ab /c/c; drop b/2.1; drop a/1.2; drop B/1.1; w /
on a/10.1 /c/b/ab/c; w /c/c/b /c /; w /
on a/10.1 /; off a/1.1 /c; on B/1.1 /; w /c/ab/b / /b/a/b/c; drop a/10.1; on a/1.2 /; drop B/1.1; w /ab/b/ab /c; off B/1.1 /c/ab; w /
on a/10.1 /ab/b/ab; on a/1.2 /b/c; w /b /; on B/1.1 /c/b/ab/c; on a/10.1 /a; w /c/a /a /c; w /ab/ab; on a/10.1 /a/ab/ab; off a/1.2 /ab/b; w /
off a/1.1 /; on a/1.2 /ab/ab/c; on a/1.1 /a/a; on B/1.1 /; w / /; w /a/c/b; on a/1.1 /c/ab/b; w /
on a/10.1 /a/c/c; off a/10.1 /; on B/1.1 /ab; w /ab/a/ab; w /
w /b/b /a/b /a/c; off b/2.1 /c/ab/c; w /ab; w /
on a/1.2 /c; w /c/c/c/c /ab/c/b; drop a/1.2; on a/10.1 /b/c/b/b; w /
off a/1.1 /b/b; on b/2.1 /ab/b/a; drop b/2.1; on a/1.1 /; on a/1.1 /; w /a/b /ab/ab/ab /b; on a/10.1 /; on a/10.1 /a/a/a/b; on b/2.1 /b; w /
on b/2.1 /; on b/2.1 /ab/b; on a/1.1 /b/a; off a/1.1 /ab; w /
w /b/a/b /a/b; on a/1.2 /c; w /ab/b/ab/a; on a/1.2 /ab/b/ab; on b/2.1 /; on a/1.1 /c; w /
on B/1.1 /a/ab/c; on a/1.2 /c; w /b/b/c/b; w /
on a/1.2 /; w / /c /c/c; on B/1.1 /c/ab/a/b; w /a/c/b/ab; on a/1.1 /b; w /ab/ab; w /ab; on a/1.1 /; on a/1.2 /c/c/c/a; w /
on a/1.2 /b; on B/1.1 /ab/a/a; w /ab/ab/ab/ab /a/a; on a/10.1 /; drop b/2.1; on a/1.1 /ab/c/c; off b/2.1 /b; w /
on a/10.1 /a; off B/1.1 /ab/b/a; on a/10.1 /b/c/c/a; on b/2.1 /b; on B/1.1 /c/a/c/a; drop a/10.1; on a/1.1 /c/c/a/ab; off a/10.1 /ab/a; w /
on a/1.1 /ab; w /; w /
w /ab/b/c; on a/10.1 /c/a; off a/1.1 /; w /ab/c/b/b /c /; on a/10.1 /ab/ab; w /c/ab/ab /c/b/b/c; on a/10.1 /c/a/ab; off B/1.1 /c/b; on B/1.1 /b; w /
drop b/2.1; off a/10.1 /c; off a/10.1 /b/a; w /
on a/10.1 /c/c/a; on B/1.1 /b/ab/b/b; w /b/c; off B/1.1 /c; w /ab/ab/c; on B/1.1 /; on b/2.1 /c/ab; on B/1.1 /c/ab; w /a/ab; w /
off a/10.1 /; on a/10.1 /; on B/1.1 /ab/ab; w /
on B/1.1 /a/c; off a/1.2 /b/b; w /
w /a; off a/10.1 /c/c/ab; on a/1.1 /ab; w /c/ab/b; w /
w /ab/c/a /ab/a/b; w /c / /b/b/a; off b/2.1 /; w /
on a/10.1 /; drop b/2.1; off B/1.1 /a/c/c; w /
w /b/c/c/c / /ab/b; on a/1.1 /; w / / /ab/a; on B/1.1 /a/c/c/a; w /; on b/2.1 /c/ab/b; on a/1.2 /b/b/b/b; w /c; w /
w /a/c/b /ab/a/ab /; w /b/c /ab/ab/a/a; drop B/1.1; on B/1.1 /c/c/c/a; w /a /; on a/1.2 /a/b/b; on a/1.1 /ab; w /a; on B/1.1 /c/ab/b/a; w /
on a/1.2 /a/ab; w /ab/b/c/c / /ab/b; on b/2.1 /b/c/b/ab; w /ab/a /b; w /
on a/1.1 /ab/b/a; w /b; w /
on B/1.1 /a/c; off a/10.1 /b/a; on B/1.1 /b/ab/a; drop a/1.2; on B/1.1 /a/a; w /a /b/a /; on a/1.2 /; w /c/ab/a/b /ab /; w /
on B/1.1 /c/ab/a; on a/1.1 /a; w / /; off b/2.1 /b/ab; w /
w /b/c/b; w / /b/b/ab; on b/2.1 /c/c/a/a; w /c/b/ab /ab; on a/1.2 /a/c/ab/ab; w /c/ab; w /
drop a/1.2; on b/2.1 /ab; w /
on a/10.1 /ab; on a/1.1 /b/c/b; off b/2.1 /; w /c /c/b; w /
w /c; on a/10.1 /a/ab; on B/1.1 /c/b/b/ab; w /
drop B/1.1; w /a/b/ab/c; off a/10.1 /ab/b; w /
w / /b /b/ab/b/a; w / /ab/ab/ab/c; w / /c; on a/10.1 /; w /
on a/10.1 /; on a/1.2 /a/ab; on a/1.2 /c/ab; on a/1.1 /b; w /ab/b; w /ab/a /c; off a/10.1 /ab/ab/c; on a/1.1 /ab/ab/b/c; w /
on a/1.1 /c/ab/ab; w /b/b/c; on a/10.1 /a/a/a/ab; on B/1.1 /; on a/1.1 /b/a/c; w /
on a/1.2 /c/c/ab; on a/10.1 /a/a/ab/a; w /
w /ab; drop b/2.1; w /ab/ab/b /c/a/c /a/a; on a/1.2 /c/a/c/a; w /
w /c/ab/a/b /c/ab/b; off a/1.2 /a/c; off b/2.1 /b/b/ab; w /
w /c/a / /b; on a/10.1 /a/a/a; w /b; off b/2.1 /a; on a/10.1 /ab/ab/c/ab; w /c/b/b/c / /a; w /
on a/1.2 /c; w /c/a/b; off a/1.1 /a; on a/1.2 /c/ab/b/b; on b/2.1 /c; w /
w /ab/c /a; w /ab /c /b/ab; w /c /ab/a/b/b; w /
on a/1.1 /c/c/c; on a/1.2 /; on b/2.1 /c; off b/2.1 /ab/a/c; off a/10.1 /ab/b; w /b/b/a/b / /c/b; on a/10.1 /; w /c/b/a /b/b; w /
drop b/2.1; w /c/c/ab/ab /ab/b /c/ab/a; off a/1.2 /; drop a/1.2; on a/1.2 /c/c/ab/a; on a/1.2 /a/b; w /a/c/b/a /c; w /
w /c /a/b/a /a/c; on B/1.1 /b/b/a; on B/1.1 /b/c; off b/2.1 /a/b/b; on a/10.1 /a/b/a; on b/2.1 /ab; on a/10.1 /b/ab/c/b; off a/1.1 /c; w /
drop a/1.1; drop a/1.1; on a/1.2 /ab/b; on B/1.1 /ab/ab/ab; w /b/b/b/c / /ab; w /c/a /c/b/a; on a/1.2 /c/b; w /
w /ab/ab/c; on a/1.1 /ab/b/b/a; on a/1.2 /a/a/a/c; w /c /a; on a/10.1 /a; on B/1.1 /c/ab; w /b/ab/ab; w /a/ab /ab /b/a/ab; w /
on a/10.1 /a/b; drop b/2.1; on a/10.1 /b/a/c; w /
off B/1.1 /c; off a/1.1 /a/c; w /c/b/a / /c/b/b/a; w /c/ab/ab/ab /ab/a/b/c; w /
drop a/1.2; on a/10.1 /a/ab; on B/1.1 /a; drop b/2.1; w /; off b/2.1 /ab/a; off a/1.2 /b; w /
off a/10.1 /c; drop a/1.2; w /; on a/10.1 /b/b/a; w /; w /b/c /a/ab/c/a; on B/1.1 /a/c/c/a; on a/10.1 /c; w /
on a/1.1 /c/b/b; on a/1.2 /c/ab/a; w / /b/a/b; on a/10.1 /ab/a; on a/1.2 /ab; w /b/c/ab; on b/2.1 /c; on a/1.2 /; w /
on a/10.1 /b/a/a/c; w /c/a/ab / /b/a; on a/1.2 /c; w /b /b/c/b/a /c/ab/a; w /
off a/1.1 /ab; on b/2.1 /a/ab/a; w /ab/b/a/ab / /b; on a/1.1 /a/a/a/ab; w /a/c/c/a /ab/c /; on a/1.2 /a; off a/1.2 /b; on a/10.1 /c/a/b/ab; on a/10.1 /; w /
off b/2.1 /ab/c/ab; w /b/ab/ab / /a/c; drop B/1.1; w /
drop a/1.1; off B/1.1 /b; on b/2.1 /; on a/1.2 /a/ab; w /c/a; on B/1.1 /c/c; w /a/c/b /ab/b/b /a/a/a; w /
on B/1.1 /b/b; w /c; w /
on a/1.2 /a/a; off B/1.1 /a; on B/1.1 /b/a/ab/c; off b/2.1 /; w /; w /ab/a/ab/c /c /c; on a/10.1 /a/a/c; w / /; off a/1.1 /c/c/b; w /
on B/1.1 /c/a/b; off a/1.1 /c/b/a; w /c/c/a; w /c/b/b; w /a/a /b/c/b; on a/10.1 /ab/a/ab/ab; w /
w /ab/c/a /a/ab/a; on a/10.1 /b; on a/1.1 /; w /
on B/1.1 /c/a/c/c; on b/2.1 /a; on B/1.1 /a; off b/2.1 /c/c; w /
on a/1.2 /; off a/10.1 /ab; on b/2.1 /ab; off a/1.2 /a/ab; on b/2.1 /b/ab/b/b; w /
on b/2.1 /ab; w /a/b/c /ab/ab/ab; on b/2.1 /a/c; w /b/a; on b/2.1 /a/ab; w /a/a/a; off B/1.1 /; w /
off B/1.1 /c; w /c/b /b/a /a; off B/1.1 /b; w /
w /b/a/b/a; w /c /b/ab /c/a; w /ab / /c/b/b; on a/10.1 /b/a/a; on b/2.1 /b; w /a/b/c/a /; w /
w /b / /b/b; on b/2.1 /ab; on b/2.1 /b/ab/b/a; off a/10.1 /b/b; w /
off a/1.1 /a; on a/1.1 /c; on B/1.1 /c/b/c; on a/1.2 /ab; off a/10.1 /; on B/1.1 /; w /
on b/2.1 /c; off B/1.1 /; on B/1.1 /a/a/ab; on a/1.2 /c/c/a; w /; on a/10.1 /b/b/ab; off b/2.1 /a/ab; w /
on B/1.1 /a; on b/2.1 /c/a/a; on B/1.1 /b/c; off a/10.1 /a/a/b; on a/10.1 /ab/a/b/c; w /b/b; w / /a /ab/b/b; w /b/a /c/b /a/b; w /
on B/1.1 /; on b/2.1 /b/a; w /c/c/a /ab/b; on a/10.1 /c/b/c/b; on a/1.1 /a/b/ab; w /
w /b/b; off a/1.1 /b/ab/b; on b/2.1 /; w /ab/a/a /b/a/ab/a /b; on b/2.1 /; off b/2.1 /; drop B/1.1; w /b / /c/b; w /
on a/1.1 /ab/c/c; on a/10.1 /c; on b/2.1 /ab/a; on a/1.2 /b/c/c; on b/2.1 /; w /a/b/a /c/a/c/a; w /ab/b/a /ab/a/a /ab; w / /ab/c/ab /b/b/b/a; w /
on a/1.2 /a/a/c; on a/10.1 /c/b/c/b; w / /; off B/1.1 /; w /a/a/c/ab /; off B/1.1 /ab; on a/1.2 /a/a; w /a/c/ab /b/c/c/c; w /
on a/1.2 /b/b/a/ab; w /b /ab/b; on a/1.2 /a/b/b/c; on a/1.2 /ab/ab/b; w /a/b /ab; on a/1.2 /a/c/a/a; on b/2.1 /; w /b/ab/c /c /ab/a/ab/a; on b/2.1 /; w /
on a/1.1 /c/ab/a/a; off a/10.1 /ab/b; w / /c; w /
w /b/c/a /c/c/b/b; w /c; w / /b/ab /a/ab; on a/10.1 /a/a; w /
drop a/1.2; w /c/a/b/b /a; w /b; on a/10.1 /a; on b/2.1 /a; w / / /ab; on b/2.1 /b/ab/c/ab; on a/10.1 /ab/ab; w /
w /ab/ab; w /a/a / /ab/ab/b; w /ab/b/b /a/b/b/ab; w /
off b/2.1 /ab/c; on B/1.1 /c/a/a/ab; off a/1.2 /; on a/10.1 /ab/ab/b; on a/1.1 /c; w /ab / /; w /
on b/2.1 /; on b/2.1 /a; on b/2.1 /b/b/b; drop b/2.1; w /
off a/1.2 /ab; drop a/1.1; on B/1.1 /a/a/c; w /a/a /a/b/b/ab /a/ab/b/a; w /
on a/10.1 /; off a/1.1 /b/b; on b/2.1 /ab/a/a; w /a /ab/ab/b/a /b/ab/ab; drop b/2.1; on B/1.1 /c/a; drop a/1.1; w /a /a/ab/b/c; on a/1.1 /; w /
drop b/2.1; on a/1.1 /; on a/1.2 /c/c; on a/1.2 /c/b/a; off a/1.2 /b; drop b/2.1; w /
on B/1.1 /a/c; w /c / /; w /
on B/1.1 /c/ab/b; drop B/1.1; on a/10.1 /a/c; off b/2.1 /; on a/10.1 /a/b; w /
on b/2.1 /c/a/a; w / /ab/b/a; on a/10.1 /b/c/ab/a; w /b/b/a /a/b/b/ab; w /c/c/ab /c/ab/ab /b; w / /ab/c/b /; on a/1.1 /b/b/b; off B/1.1 /c; w /
on B/1.1 /ab/b/ab/a; w /ab/b/b/c /; w /; on a/1.1 /b/c/c; off a/1.2 /; on a/1.1 /c/a; on a/1.2 /b; w /a/c/ab; w /
on b/2.1 /a/ab; w /; w / /c /c/a/ab/c; on B/1.1 /a; w /
on a/10.1 /c/a; w /a; on a/1.1 /c/a/a/b; drop B/1.1; on b/2.1 /; w /a/b/c/a; w /
on a/1.2 /a; drop a/1.2; on a/10.1 /; on a/1.2 /a; on a/10.1 /b/b; on a/1.2 /a/ab/b; w / /a/c /b/a/ab; w /
on b/2.1 /ab/c; off b/2.1 /a/a/a; w /c/c/ab/ab /a/b/c/c; on a/10.1 /ab/ab/b; on a/1.1 /a/c/ab; on a/10.1 /a/b/c; w /
on b/2.1 /; on a/1.1 /; off B/1.1 /c; w /
on a/1.1 /; w /b/ab/b/a /a; w /
on a/10.1 /b; on b/2.1 /b; on B/1.1 /ab; off a/1.2 /ab/b; w /a/b; on B/1.1 /; on B/1.1 /c; w /
w /a /ab/ab /; w /c / /c/a/a; on a/1.1 /; on a/1.2 /b/c; w /
on a/10.1 /b; on b/2.1 /ab; w /
off a/1.1 /b/c; w /c/a/a/c; on a/10.1 /c/b; drop a/1.1; w /
w / /a/c/a /b/ab/ab/ab; on B/1.1 /; off a/1.1 /c/a/b; on B/1.1 /a/ab/a/a; on B/1.1 /ab/a; on B/1.1 /c; off a/1.1 /ab; w /
on a/1.1 /c/b/a; drop a/10.1; on a/1.1 /c/a/b/ab; w /
drop a/10.1; on a/10.1 /b/ab/a; on a/1.1 /a/a/ab; w /b /a/c; w /
on B/1.1 /; off a/1.1 /c/ab/c; on B/1.1 /a/c/ab; w /
on B/1.1 /a/a/c; drop b/2.1; w /
off a/1.1 /b/c/ab; drop a/1.1; w /
on B/1.1 /c/a/a; on B/1.1 /b/ab/b/c; w /a/b/c/a /a/a /c/b; on a/10.1 /ab/ab; on b/2.1 /b/a/b/ab; w /
drop a/1.2; off b/2.1 /a/b/b; w /
on a/1.1 /b/b; on a/1.2 /a/c/b/ab; off a/1.2 /ab/ab/c; on a/1.2 /; w /
on B/1.1 /a; drop a/1.1; w / /c/c/a/c /ab/ab; w /; on B/1.1 /b/b/b; w /
on a/1.1 /ab/b; on a/10.1 /a; on a/1.2 /b/a; on a/10.1 /c/b/ab/a; w /ab/a /a/b/b/a; w /c; w /
w /a/b/a/b /ab /ab; w /ab/a/c /a; on a/1.2 /c/b/ab; on B/1.1 /c/a/c; w /
on B/1.1 /c/c/ab; on B/1.1 /a; off a/10.1 /c; on a/1.2 /ab/c/a/b; off B/1.1 /; on a/10.1 /ab/a/c/a; off a/1.1 /c; w /ab/c /ab/ab/b/c; on b/2.1 /b; w /
on B/1.1 /; on a/1.2 /b/a; drop B/1.1; w /ab / /ab/b/b/c; w /b/ab/a/b; w /b/b/ab/b /c /a/a/ab/a; on a/1.1 /c/a/b; on b/2.1 /; w /b/b/ab/a /ab/ab/b/a /; w /
w /c /c/c /; on B/1.1 /c/a; on B/1.1 /; on a/1.2 /; on a/1.2 /; w /
on a/1.1 /ab/b; on b/2.1 /c; on B/1.1 /; on B/1.1 /c/a; w / /ab; on a/1.1 /ab; on b/2.1 /ab/ab/ab/c; w /
on a/1.1 /; w / / /a/b/ab; off b/2.1 /b; w /a/a/c; w /ab /b; w /
w /a/ab/c/b /c/b/ab/a /b; drop b/2.1; on B/1.1 /c/c; on a/1.2 /; on a/1.2 /b/c/ab; w /
on a/1.2 /c; on a/10.1 /b/c/c/a; on a/1.2 /c/ab; w /
on B/1.1 /b; drop a/10.1; drop a/10.1; w /c/a/ab/a /a/b; w /ab/c/b/c; on a/10.1 /; w /
off B/1.1 /b/a/ab; drop a/1.1; on B/1.1 /c/ab; on a/1.2 /a/a/a; w /
on b/2.1 /ab/b/b; w /ab/a /ab /c/ab/a; off a/1.1 /b/b/b; off b/2.1 /ab/ab/a; off a/10.1 /b; w /
w /b/b/c /ab; on a/1.2 /ab; drop a/1.1; off a/1.1 /a; w /
on B/1.1 /; on a/1.1 /c; w /
on B/1.1 /b; off a/10.1 /c/ab/b; off b/2.1 /a; on b/2.1 /a; off b/2.1 /a; on B/1.1 /b/b/ab/b; w /
w /b /a; off a/1.2 /c/ab/b; on a/1.1 /; on a/1.1 /; w /
w /ab; w /ab/ab /; on a/1.2 /c/b/a; on B/1.1 /ab/c; w /a/a; w /b/ab/b /a/ab/a/c; on B/1.1 /; w /
w /b /ab /ab; on B/1.1 /a/c; on B/1.1 /; on a/1.2 /a; on b/2.1 /b/a/b; on B/1.1 /ab/ab/a/b; on a/1.2 /ab/ab/ab/c; on a/10.1 /a; on a/1.2 /a/ab; w /
off a/10.1 /b/ab; on b/2.1 /ab/c/a/c; on B/1.1 /b/b/ab/c; on a/1.1 /b/c; on b/2.1 /b/ab/ab/c; on b/2.1 /ab; on B/1.1 /ab/a/ab/c; w /
off a/1.1 /c; on a/1.1 /; w / /c /c/c; on a/1.1 /b/b/b; on B/1.1 /b/b; on b/2.1 /ab/b; off a/1.2 /ab; w /
w /c/c/a/ab; on a/1.1 /a/ab/b; w /b/ab; w /
w / / /ab/a; drop a/10.1; on B/1.1 /a; on a/1.1 /c/c; on a/1.2 /ab/c/a; off B/1.1 /a/a/ab; w /c/c/b /b; w / /b/c/ab/ab /a/b; w /ab /a /ab/c/ab/ab; w /
off a/10.1 /ab; on b/2.1 /c; w /; drop a/1.1; on a/10.1 /; off b/2.1 /ab/c/c; drop a/10.1; on a/1.1 /; w / /a/a; w /
w /ab /a/b; on B/1.1 /c/c; w /a/c /c/c/b; off B/1.1 /b; drop B/1.1; off b/2.1 /; w / /a/ab/a; w /
on a/1.1 /b/b; on a/10.1 /c; off a/1.1 /ab/c; on B/1.1 /a/a; w /ab/b/c/c /ab; on B/1.1 /c/ab; on B/1.1 /b/c; w /
on a/1.2 /a/a; on a/1.2 /a; on a/1.2 /ab; on a/1.1 /; w /
on b/2.1 /a; off a/10.1 /ab; w /a/a/b /ab/c/a/b /; off a/1.1 /; on a/1.1 /b/ab/b; w /b /a /a/ab; on a/1.2 /a; on a/1.2 /c; w /
w /a/b/c /c/ab; off b/2.1 /c/b/ab; on B/1.1 /; on a/1.2 /; w /
on a/1.2 /b/c; drop a/1.2; w / /ab/c/ab/ab /c/b; off a/1.2 /ab/ab; off b/2.1 /ab/b/a; drop a/1.2; w /b/a/c/c /ab/a /b/b/b/ab; on b/2.1 /b/b/b/b; on a/1.1 /c/b/c/c; w /
on a/1.2 /b; w /a /; w /
on B/1.1 /a; off a/1.2 /; w /c/c; w /
on b/2.1 /a/ab; on B/1.1 /c/ab/c/ab; on a/1.2 /a/b; on b/2.1 /a/b/c; on a/10.1 /b/c; w /b/a /; on B/1.1 /; on a/10.1 /c/a; on a/1.2 /b; w /
off B/1.1 /c/b; on a/1.1 /; on a/1.2 /; on a/10.1 /a/c; on a/1.1 /ab/b; w /
w /a/ab /a/b/b /; off b/2.1 /b/c; on a/1.1 /a; on b/2.1 /; on b/2.1 /a; on a/1.2 /b; off a/1.2 /ab; w /b /b/b/c; on a/1.2 /; w /
off a/1.2 /b/c/a; w /c /c; w /b; off a/1.2 /c/ab; w /
on a/1.1 /b/c/b; w /a/b; on a/1.2 /ab/b/b; on B/1.1 /a/c/a/c; on a/10.1 /; w /b/b; off B/1.1 /a/b/b; w /c/b/a/ab /b/ab/b; on B/1.1 /c; w /
drop B/1.1; on a/1.1 /; on a/1.2 /c; w /a/ab/c/c /b/c; on a/10.1 /c/c; w /
w /; on a/1.2 /ab/c/a; on a/1.1 /ab/b/c; on a/1.2 /c/a; drop b/2.1; w /a / /a/b; on b/2.1 /b/a/a/ab; w /
off b/2.1 /; w /a /; drop a/1.2; w /
on B/1.1 /b; on b/2.1 /ab/c/a/ab; w /
on B/1.1 /c; on a/10.1 /a/a; w /c/a/b /ab /a/ab; on a/1.1 /a/b/a; w /b /b; w /
off a/10.1 /a/a; on a/1.1 /b/a/ab/b; off a/1.2 /a/c/a; on a/1.1 /; w /c/ab/c/a /b/b/ab/c; w /
w /c /b; w /c /; on a/1.1 /ab/b/b/b; off a/10.1 /ab; on B/1.1 /b/c/ab; on a/10.1 /b/ab; w /
w /ab /b/b/c/b; drop a/10.1; drop B/1.1; on a/1.2 /ab/a; w /
w /b/b /a/a/a/a /b; on a/1.1 /ab; on b/2.1 /c/c; w /ab/c/c/a /a/ab /ab/a/c; w /b/b/ab /b/c/b/ab; on b/2.1 /; on b/2.1 /a; off a/10.1 /c/b/ab; w /
w /; w /ab/ab/ab/a; w /
w /c/ab/c/ab; on a/10.1 /; on B/1.1 /; off b/2.1 /b; w /c/ab/ab/a / /c/c; on a/1.1 /ab/a/a/b; w /
on a/10.1 /c/c/c; w /ab/c/a /a; on b/2.1 /b/ab/b; on B/1.1 /a/b/c/b; off a/1.1 /a/b/ab; on a/1.2 /a; w /
on a/10.1 /ab; w /c/a /ab/a /c/c/a; on B/1.1 /a/ab; w /; w /
on a/10.1 /ab/a/c/b; w /b /ab/b/ab/a; w /c/b /a/ab/ab; on a/1.2 /c/ab; on a/10.1 /ab/ab/c; w /ab; on a/1.1 /a/ab/c/ab; w / / /ab; w /
w / /ab/c; drop b/2.1; off a/1.1 /a/b; on a/1.1 /b/ab/c; on B/1.1 /a/b; w /a/c /a/ab/b/ab; on B/1.1 /b/c/a; w /
on b/2.1 /ab/a/ab/a; on a/1.1 /a; on a/10.1 /b/c/c/ab; w /c/c; off B/1.1 /a/a/ab; off a/10.1 /c/a/ab; on a/10.1 /b; drop B/1.1; w /
drop a/1.1; on a/1.2 /c; w /ab/a/a /; on b/2.1 /; on a/1.1 /; on B/1.1 /b/b; on B/1.1 /c/c/a; on a/10.1 /ab; w /
on a/10.1 /ab/a/ab/b; w /b/b/c / /c/a; drop b/2.1; on B/1.1 /c; on a/1.2 /ab/ab; on a/1.2 /c/a/ab/b; w /
w /b/b /b; on a/1.1 /; w /ab/b/b/b; w /b/b/b/c; on a/10.1 /; on a/1.2 /b/b/b/c; w /c/b /a /ab/a/a; on a/1.2 /ab/c; w /
on a/10.1 /b/c; on a/10.1 /c; w /b/ab/c/ab; w /
off a/10.1 /; w / / /; w /
on b/2.1 /a/ab/b/ab; w /a/a/c; on B/1.1 /a/ab/c/c; w /b/c/c /c/c/c/b; on a/1.1 /a; on a/10.1 /b; w /
w / /c/ab/ab /b; off a/1.2 /ab/b/a; w /; drop b/2.1; on a/1.2 /c/b/c/a; on B/1.1 /c/a/c; on b/2.1 /a/a/c; drop B/1.1; on a/1.1 /c/c/ab/c; w /
drop a/1.2; w /ab; w /a /ab; off a/1.2 /c/b; off a/1.1 /; on B/1.1 /b/b; w /; on a/1.1 /b/a; off B/1.1 /ab/a; w /
w /ab/b/b /b/b /b; on B/1.1 /a/ab; on a/10.1 /ab; w /a/a /a; on a/1.1 /ab/b; w /
on a/1.2 /ab/c/b; on B/1.1 /a/a/b; w /; on B/1.1 /c/c/b/c; on B/1.1 /a; off a/1.2 /c; on a/1.2 /; w /
drop a/10.1; on b/2.1 /b; w /
w /c/ab /b/a/b/ab /b/ab; w /b /b; w /ab/a/ab/b /ab/b/c/ab /c/a; w /
on a/10.1 /; drop a/10.1; on a/1.2 /; w /ab /a /c/a; w /ab; on a/1.2 /b; w /
on b/2.1 /; on a/10.1 /; on B/1.1 /ab; on B/1.1 /; off a/1.2 /b; on a/10.1 /b/c/c/ab; off a/1.1 /a/ab/a; w /c/b/a /c/b/b/ab /; w /a /c/b; w /
on a/1.1 /a/ab/ab; on B/1.1 /ab/a/c/b; w /
w /; w /c/a/ab /; w /
w /a/b /b/a/ab /b/a/b; off B/1.1 /ab/ab/c; w /
drop a/1.1; on a/1.1 /; on b/2.1 /ab/ab/b/c; on a/1.2 /; drop b/2.1; on a/1.1 /b/a/ab/a; w /
w /a/b/c/c; w /a/a/a/b /c/ab; w /
on a/1.1 /b; off a/1.2 /; on a/10.1 /a; on a/10.1 /a/a/a; off B/1.1 /; w /
off a/1.1 /c/b; on B/1.1 /b; on b/2.1 /c/ab/ab; off B/1.1 /a/a; w /
on a/1.2 /c/c/c; on a/1.1 /b/b/c/b; on a/1.1 /c/c/ab; on a/1.1 /c/ab; on B/1.1 /; off a/1.1 /ab; w /a/c/c / /ab; w /
off a/1.1 /ab/a; drop a/10.1; w /
on a/1.1 /ab; off a/1.1 /; w /b/a/ab/c; w /
w /c /a /b; off b/2.1 /b; w /b/c/b/c / /ab; w /; off a/1.1 /; drop b/2.1; on b/2.1 /a/ab; on a/10.1 /b; w /
on a/1.1 /ab; on a/1.1 /c; w / /; w /
drop B/1.1; on a/10.1 /; on a/10.1 /a/b/b; on a/1.2 /ab/b; drop a/1.2; w /ab/b/a/a; on b/2.1 /c/c; w /
w /a/c/b /ab/a/ab/b; drop a/1.1; w /c/b /ab/a/b; w /ab/a /b/b; on a/1.2 /a/ab/c/a; on a/10.1 /ab/b; w /c/a/ab/c; w /
on a/1.1 /b/a; on b/2.1 /; drop B/1.1; drop a/1.2; w /
on a/1.2 /b/c/ab; on a/1.1 /a/ab/b; off B/1.1 /; on a/1.2 /b/a; on a/1.2 /ab/b; w /
w /b /b/a/a /c/c/c; on B/1.1 /ab/a/b/ab; on a/10.1 /ab/a; on a/10.1 /; off B/1.1 /c/b/b; w /
on a/10.1 /; w /c/b /a/c /ab; w /c/c/b/b /a; w /ab/a; w /
on a/10.1 /b/b/b/ab; w /a /a/b; w /
w /b/ab/a/b /a/ab /a/b/a; on B/1.1 /b/a; on a/1.2 /a/a/b; on b/2.1 /a/c/b; on a/1.1 /b/a/a; off a/10.1 /; w /
on a/10.1 /ab; on B/1.1 /b/ab/b/c; w /ab/c/c/b /b; on B/1.1 /b/b; w /
w /ab /; off a/1.1 /c; w /
w /a/c/c/ab /b/b/a/a /a/a; on a/1.2 /; on b/2.1 /b/a/ab/c; w /
on a/1.2 /b/c; w /; on B/1.1 /ab; off a/10.1 /; on a/10.1 /c/a; on b/2.1 /b/b; on a/1.2 /; on b/2.1 /ab/b/a; on B/1.1 /c/b/a/ab; w /
w /b/a/c /b; w /a; off a/1.2 /; w /c /ab/a; w /
w /ab/ab /c; drop a/10.1; w /b/c/ab / /c/ab/ab/c; on a/1.1 /b/a; w /ab /a /b/ab; w /a/b/ab /ab/a /; w /; w /
on a/1.1 /a/c; on a/1.2 /a; w /b/ab/ab/c /; off a/1.2 /b; drop a/1.1; w /ab; w /
w /b /; on b/2.1 /b/ab/b; w /c/c /a/b/ab/ab; drop B/1.1; w /
255 on a/1.1 /c; on a/1.1 /a/ab/b; w /b /ab; on b/2.1 /b; w /b/ab /a/c/b; off B/1.1 /ab/a; on B/1.1 /a; w /
on b/2.1 /; w /b/ab/c /b/b/b/a; on a/1.1 /a; drop a/1.1; on b/2.1 /ab/b/a; w /
w /c /a; off b/2.1 /; off a/1.2 /c/b; on a/1.2 /a/b/ab/c; off a/10.1 /a/b/c; w /ab/b/b /a/a; w /a/c/a /; off B/1.1 /c; drop a/10.1; w /
on b/2.1 /a; drop b/2.1; off a/1.1 /; w /c/a; on a/1.2 /b/c/a/b; on a/1.2 /b; w /a/b/a/b /a; w /
on a/10.1 /; on a/10.1 /ab/a; on B/1.1 /; on a/1.1 /; on a/1.1 /; on a/1.1 /c/a/a; on a/1.1 /ab/a/ab/ab; on a/10.1 /; w /
on b/2.1 /c/a/ab/a; w /; drop a/1.1; off a/1.2 /c; drop b/2.1; off a/1.2 /a/a; off b/2.1 /c/c; w /
w /a/b; drop b/2.1; w /c /a /a/c/c/ab; off B/1.1 /a/a; on a/1.2 /c; w /a/b; w /ab /b; w /c/b/a /b/c/b /b/ab; w /
off B/1.1 /c; off a/10.1 /ab; w /
off a/1.1 /ab/c/c; off B/1.1 /b/c/b; on B/1.1 /ab/b/c/a; on a/1.1 /a/b/c; w /
on a/1.1 /c; on a/10.1 /ab/ab/c; off a/1.2 /ab/b; on a/1.1 /a/c; w / /; on B/1.1 /b/a/ab; w /b/a /c/ab/ab; on a/1.2 /ab/a/c/c; w /
on a/1.1 /c/c; drop b/2.1; on a/1.2 /a; drop B/1.1; off a/1.1 /a; w /a/c/c/c; on a/1.1 /b; w /
off a/1.2 /b; on a/10.1 /b; on b/2.1 /b/c/ab; w /b/b /a/c /ab/a; w /
w /; w /; on a/1.2 /b/a; on b/2.1 /; on a/1.1 /ab/a/a/c; on B/1.1 /; w /ab/c/ab /c/ab; w /
w /a /c; w /ab/c/a/ab /b /ab/c/ab/c; w /b/b/ab /b/b/c/a /ab/b/b; on a/10.1 /; w /
on b/2.1 /a; w /b; w /a/a /c/ab/ab/b; w /
on a/1.1 /c/a; on a/1.2 /a/c/c; off a/1.2 /a; on B/1.1 /a/ab/ab; on a/1.1 /c; w /b/c/c /c/c/b /c/b/a/a; on a/1.2 /c/ab; drop a/10.1; on b/2.1 /c; w /
drop b/2.1; w /ab/c /ab/ab/b/c; on B/1.1 /a; w /b; w /
on B/1.1 /a/b/a; on B/1.1 /b/c/a; off B/1.1 /a/c; w /c; w /c/ab/ab; off a/10.1 /; on b/2.1 /c; drop a/1.2; w /
on a/1.2 /c/ab; on b/2.1 /; on B/1.1 /c/ab; w / /; drop a/1.1; on a/1.1 /b/a; on B/1.1 /c/ab/c/b; w /
on a/10.1 /c/b/b/b; w /ab/a/b/a; w /
on a/1.1 /b/b/c; w /ab/b/a/ab / /c/b/b; w /
w /ab/a/b; drop a/10.1; off B/1.1 /c/a/c; w /c/ab /c/c /a/ab/a/b; w /
on B/1.1 /c/a/c; w /ab/ab /c/c/ab; on a/1.2 /b/c; on a/1.1 /a/ab/c/c; w /
on B/1.1 /ab/c; on a/1.2 /a/a/c; on a/10.1 /a/c; w /
w /a/ab/ab /a /b/c/a; on a/1.1 /; on b/2.1 /; on a/1.1 /a/a; on a/1.2 /b/b/b; w /
off b/2.1 /; on a/1.2 /ab/ab/a; on b/2.1 /b/b/c/b; off B/1.1 /b/b/a; on a/1.1 /a/b/c/c; on b/2.1 /b/c/b/a; on a/1.1 /ab/a; w /ab/a /a/a; w /
drop b/2.1; on b/2.1 /; drop a/1.2; w / /c/c; w /
w /b/c/a/b; on a/10.1 /; on a/1.1 /c/ab; off B/1.1 /a/ab; on B/1.1 /c/b/c/ab; on b/2.1 /a/a/b; on a/1.1 /ab/b/b; w /ab/a; drop a/10.1; w /
off a/1.1 /b; off B/1.1 /; w /
on b/2.1 /b; w /b/c/a /c/a /c; on a/1.1 /c/ab/a; on a/1.1 /ab/b; on b/2.1 /a/ab/c; w /c/c/b/b; off a/1.1 /a/b; w /
drop a/10.1; w /ab/ab/ab; w / /a/ab /; off a/1.2 /a/a; on a/1.1 /a; w /
on b/2.1 /b/ab/a; w /ab; w /; w /b/a/b / /c; w /; w /c/ab; drop b/2.1; on a/1.1 /a; on a/1.1 /ab/ab/c/ab; w /
w /c/ab/c/b /ab/a /ab; on B/1.1 /ab/ab/c; w /
on b/2.1 /b/b; on a/1.2 /; on a/1.2 /a/a/ab; on B/1.1 /b/ab/c; off a/1.2 /c; on a/1.1 /c/c/a; w /
off a/1.1 /a/b/b; on a/1.2 /b/ab/ab/ab; w /b/b; on a/10.1 /b; w /
off B/1.1 /; w /ab /c; w /
w /ab /ab/a/ab/a; on B/1.1 /a/c; off B/1.1 /c/ab/a; on b/2.1 /b/a/b; w /c /ab/ab/ab/ab; w /
on b/2.1 /a/b/ab/ab; w /ab; w /; off b/2.1 /b/c/b; on a/1.2 /ab/c/c/a; on a/1.2 /; w /c/ab /c; on b/2.1 /ab/ab/a; on B/1.1 /ab/c; w /
off a/1.2 /ab/a/ab; w / /b/b/b; off a/1.1 /b; w /c/c/b; on a/1.2 /; on b/2.1 /a/a/c; w /
on a/1.2 /a; off a/1.2 /a; on a/10.1 /ab; w /
on a/10.1 /b; w /b /ab; w / /; on a/10.1 /; on B/1.1 /b/b/ab; on a/10.1 /c; w /c/ab/b/a /a/b/a /b/a/b; w /
256 on a/1.1 /; on b/2.1 /b/b; on B/1.1 /; on b/2.1 /; on a/1.2 /a/ab/b/b; on b/2.1 /ab/a/b; w /ab/a/b /ab; w /c /ab/c/a /c/ab/a; w /
on a/1.1 /; off b/2.1 /a/b/c; w /a/a/a /a/ab/b/b; w /a/c; on a/1.2 /; w /
on B/1.1 /; on a/1.1 /a; on a/1.1 /; off a/1.2 /a/c; w /
on b/2.1 /; on a/1.1 /a/b; w /ab/ab /c/ab/a/ab; on B/1.1 /; off a/1.2 /; on B/1.1 /ab/b/a; w /a/ab/b/c; on a/10.1 /; on b/2.1 /; w /
w /b/b/ab /a/ab/ab/a /b/c/ab; on a/10.1 /b/a/ab; w /
on b/2.1 /ab; drop a/1.1; on a/1.1 /a/c/c/b; w /c/b /c/a /b; off a/10.1 /b/a; w /c / /b; drop a/1.1; w /
on a/10.1 /c/a/b/b; on b/2.1 /b/c; on b/2.1 /a/c/a; off b/2.1 /a/ab; w /c/c/b; w /
on a/10.1 /b; off B/1.1 /ab/c; on a/1.1 /c/a/a/c; w /
w /ab/b/ab/b /a/ab/b /; w /b/ab/b/a /c/ab/ab /ab/c; w /
w /ab/ab /ab/a/b/a /; on B/1.1 /ab/a/ab; on a/10.1 /c/c/a; on a/1.1 /ab/ab/b/c; on B/1.1 /ab/ab/c; w /
on a/10.1 /a/b; drop a/10.1; on a/10.1 /ab/c; on b/2.1 /c/c; off b/2.1 /; w /
off a/1.2 /b; on a/1.1 /; w /
on b/2.1 /a/b; w / /a /ab/a/a/ab; drop a/1.2; on B/1.1 /a/a/a; off a/1.1 /a/ab; off B/1.1 /; w /
on a/10.1 /; off a/1.1 /c; on a/1.2 /c/ab/a; w /b/ab/b/b /a/ab; on a/1.1 /c/b/b; on B/1.1 /b/c; w /
on b/2.1 /; w / /b/b/a /a/a; w /
off b/2.1 /c/c; w /a/ab; off a/10.1 /b; drop a/1.2; off a/1.2 /c/b; off a/10.1 /b/ab; on a/1.2 /c/c/b; on a/10.1 /c/a/ab; w /
w /c/b/b /b; off B/1.1 /b/a/c; on b/2.1 /; w /
on b/2.1 /b/c; on b/2.1 /a/ab/c; on a/1.2 /; on a/1.1 /; on a/10.1 /b; on b/2.1 /c/ab/c; on B/1.1 /b/b; w /c/c; on a/1.2 /b/b/b/ab; w /
drop B/1.1; on a/1.2 /b/ab; off a/10.1 /a; w /a /ab/b/a/ab; off a/10.1 /c/ab; w /
on a/10.1 /; on B/1.1 /ab; drop B/1.1; on B/1.1 /; on a/1.1 /c/c/ab/b; off a/10.1 /; on a/1.2 /c/b; off B/1.1 /c; on a/10.1 /b; w /
on a/1.1 /b/c/ab; w /c; on a/1.2 /c/ab/ab/c; w /
w /ab/a/ab/a; on B/1.1 /; on a/10.1 /b/ab/b/c; w /; drop a/1.2; w /; on a/10.1 /ab/c/c; on a/1.2 /c/a/c; w /c/a; w /
drop a/1.1; on a/1.2 /b/ab/ab; w /a /ab /a/a/a; drop B/1.1; on b/2.1 /b/c/b; w /a /; w /b/a/b/ab; w /
on B/1.1 /a/c/ab/ab; on B/1.1 /b/c; w /ab/ab/c /ab/c/b/c /ab; w /b; on a/1.2 /b/ab; off a/1.2 /c/a; on a/10.1 /c/ab; drop a/10.1; on b/2.1 /a/a; w /
on a/10.1 /b/ab/b; off b/2.1 /a; drop a/1.2; w /
on a/1.1 /ab; on b/2.1 /a/a/b/b; w /
off B/1.1 /ab; on B/1.1 /c/a/c/ab; w /a/a; on a/10.1 /; w /; w /
on b/2.1 /c/b; w /a/c/b /c /b/a/b; on b/2.1 /a/b/a/ab; on a/1.2 /c/c/a/c; w /
on b/2.1 /ab; on a/1.1 /c/a; off B/1.1 /; on a/1.2 /a; w /ab/ab/a/a /; off b/2.1 /b/ab/a; on a/1.2 /ab/b; w /b/ab; on a/1.1 /ab/c; w /
on a/1.2 /c/a; w /ab/b/ab /c /ab/b/c/b; on a/1.1 /b; on a/1.2 /a; on b/2.1 /a/ab/b/a; w /
off B/1.1 /a/ab/a; off a/10.1 /; on b/2.1 /ab/b/c/b; w /
on b/2.1 /c/c/c; w /ab/b/ab /; off a/1.1 /; w /b/a /a/c/a/c; w /a/b; w / / /a; w /b/a; w /
on b/2.1 /b; on a/1.1 /b/ab; w /a/a/c/b; w /a/ab/ab/ab /ab/ab /ab; w /c/c/b/ab / /a/c/ab; on B/1.1 /ab/b; on a/1.2 /a/c/ab; w /
w /ab/b/c; on B/1.1 /a/ab; on a/1.1 /; on a/1.2 /a/ab/ab; on a/10.1 /; on a/1.1 /ab; w /
w /ab/a/b/b /b/a /a; on a/1.2 /ab/c/ab; off b/2.1 /; on b/2.1 /; on a/1.2 /b/a; w /
on a/1.2 /ab/ab/a; on a/1.2 /a/ab; on B/1.1 /b; drop a/1.2; on B/1.1 /b/ab/a; w /b/ab/c/a /ab/ab /; on a/1.2 /c/ab/ab/a; on a/1.2 /c; off b/2.1 /; w /
w /a /c; on a/1.1 /; on a/10.1 /a/ab/b; on a/1.1 /c/b/b/a; on b/2.1 /ab/ab/a/c; on a/10.1 /; w /a; on b/2.1 /; w /b/b /a/c/a/ab /b/a; w /
on b/2.1 /; drop b/2.1; drop b/2.1; on b/2.1 /; on B/1.1 /; w /c/a/ab / /b/a/ab/a; on a/1.1 /c/a/b/c; w /ab/b/ab/b /ab/b/b; w /
on B/1.1 /a/c; on a/1.2 /c; on B/1.1 /c/c/b/a; on b/2.1 /ab/a/b/b; off a/1.1 /a; w /ab/b/a/b /ab/ab/c/ab /; off a/1.1 /c/a/b; w /
off B/1.1 /a/b/a; on b/2.1 /a; on a/1.2 /a/b/ab/b; w /
drop a/10.1; w / /c/a; w /b /ab /b/ab; on B/1.1 /c/b; off a/10.1 /ab; on b/2.1 /c/b/c; off a/10.1 /a; off b/2.1 /a/b/a; w /
on a/1.2 /c; off a/10.1 /; drop a/10.1; w /
w /c /b/a /a/ab/ab/c; on a/1.2 /; drop b/2.1; on B/1.1 /ab/a; off a/1.2 /ab/b; w /c/c/ab/c /b/c/b; on a/10.1 /ab/a; w /
on a/1.2 /b/ab/b/ab; w / /b; w /a/a /b/c/a/ab; drop b/2.1; on a/1.1 /; w /
w /b/a/a/a; on B/1.1 /c/ab; on b/2.1 /a/c; on a/10.1 /ab; on a/1.1 /; w /c/b/ab /c; on a/1.2 /a/c/b/b; on a/10.1 /a; w /a/b/ab/ab; w /
drop B/1.1; on a/1.1 /ab/ab/b/ab; on a/1.2 /; on a/1.1 /c/ab/b; off a/1.2 /b; on a/1.2 /; w /ab/b/b/b /a /a/a; w /
off a/1.1 /; w /a/c/b/ab; on b/2.1 /a/c; on B/1.1 /ab/b/a/ab; w /c/ab/a; on a/10.1 /; on b/2.1 /; w /
on a/1.1 /a/b; on a/10.1 /a/c/ab/ab; on a/1.1 /c/c/c/a; off a/1.1 /c/b; on a/1.2 /; off b/2.1 /b/ab; w /
on a/1.2 /c/b/a/c; w /b /c /b/ab/c/b; off a/10.1 /b; off a/1.1 /; w / /ab; off a/10.1 /a/ab/a; w /c/a /ab/c/ab /a/a/ab; off b/2.1 /ab; w /
on b/2.1 /c/a/b/c; on a/1.1 /a/ab/c/b; drop a/1.1; on B/1.1 /c/c; w /
on a/1.1 /b/ab/b; on B/1.1 /a/c/c/b; w /a/ab/c; w /
off b/2.1 /b; w /c/c/ab /a/c /c/c/a; w /a/c /; w /
on B/1.1 /; w /a/c/ab /ab/c/ab /ab; w / /a/ab/c/ab; on a/1.1 /c/b; w /
on a/1.1 /a/c/c/c; w /a/a/a/b /a; on b/2.1 /ab/ab/a/ab; on b/2.1 /; w /
off b/2.1 /ab/b; on a/1.2 /c; on a/1.1 /c/c; drop a/1.1; on B/1.1 /a/b/b/c; w /c; on a/10.1 /a/c/a; on b/2.1 /; off B/1.1 /b/a; w /
on a/1.1 /c; w /ab/b / /; on b/2.1 /b/c/b; w /c/ab; on B/1.1 /ab/b/c/c; on a/10.1 /a; w /
on b/2.1 /b/ab/ab/c; w / /; on b/2.1 /a/b/c; on a/10.1 /a/ab/c/ab; w /c/ab/c/b /b/b/b/a; on a/1.2 /a; w /
on a/10.1 /; w /b/a /ab/c/b/ab /b; w /b; on a/1.2 /a; w /
off a/10.1 /c/c/c; off a/10.1 /b/a; on a/10.1 /b/c/c/b; off B/1.1 /c; on a/1.1 /c/a/ab; on a/1.2 /; w /b/c/ab/b; on b/2.1 /ab; on a/10.1 /b/b/b/a; w /
on a/1.1 /b/c/ab; on a/1.1 /c/c/ab; on a/1.2 /ab/a/b; on a/10.1 /; on a/10.1 /; on a/1.1 /b/a/c/b; on a/10.1 /c/a/c; w /
w /c/b/ab/b / /a/b/b; w /b/ab/ab; on a/1.1 /b; w /
drop a/10.1; on B/1.1 /a; w /b/a/a/c; w /
w /a/a/a/a; w / /ab/ab/b /; w /a/a/c/a; w /
on a/1.1 /; w / / /b/a/ab; w / /a/b/b /b/a; w / /c; on a/1.1 /a/c/ab/b; on a/10.1 /b/a; w /c/b/ab/a /a/ab/c; w /; on a/10.1 /ab; w /
on a/10.1 /c/b/a; w /c/a /ab/a /a/a; on b/2.1 /; on B/1.1 /b/c/ab/ab; w / /c/ab; on a/1.1 /; on a/1.1 /c; w /a/ab/ab/b /a; on B/1.1 /b/c/a; w /
w /c/c/c; drop a/1.2; w /a/c/ab/b; off b/2.1 /; on b/2.1 /a/b; on b/2.1 /c/a; drop a/1.1; w /
w /ab / /a/ab/ab/c; on a/10.1 /c; w /; w /
drop a/10.1; off B/1.1 /; w /b /; w /b/ab/b; w /
off b/2.1 /b/c; off a/1.1 /; w /
on B/1.1 /a; on a/1.2 /ab; on a/10.1 /ab/ab/ab; on a/10.1 /ab/a/b; w / /b/c/ab /b/b; on B/1.1 /; on a/1.2 /a/c; on a/10.1 /ab/b/c/ab; on a/1.2 /c; w /
off b/2.1 /c/c; on b/2.1 /b/ab; on a/1.1 /c; on b/2.1 /c/a/c; w /
off b/2.1 /a; drop B/1.1; w /ab/ab; w /ab/b/c; on B/1.1 /a/c/a; off a/1.2 /a/ab/ab; on B/1.1 /c/c; w /
on b/2.1 /c/a; on a/10.1 /b/a; w /ab/b/c/c; on b/2.1 /b/c/c; w /
w /a/c/ab; w / /ab/a/a; on a/1.1 /a/b/b/c; on a/1.2 /c; off b/2.1 /b/ab; on B/1.1 /a/ab/c/b; w /a/ab /ab/c; on a/10.1 /ab; on B/1.1 /b/b/c; w /
on a/10.1 /; on B/1.1 /a/b/ab; on a/10.1 /a; w /b /b/b/b /b/a/a; on a/1.2 /b/c/b; drop B/1.1; on a/1.2 /; w /
w /c/b/c /a/b/ab/a /; off B/1.1 /; off a/10.1 /a/b; on B/1.1 /; w / /; on a/1.2 /ab/a/c/c; w /
w /; on B/1.1 /a/ab/c; w /a/c/ab; w /ab/a/c /ab/a; on a/1.2 /; w /; on a/1.2 /; on B/1.1 /; on b/2.1 /b/a/ab/b; w /
w /ab/b/b/a /a/ab /c/b/c/ab; drop a/1.1; on a/1.2 /a/b/b; on a/1.2 /; off b/2.1 /; on B/1.1 /b/c/ab; w /
on a/1.1 /c; w /ab/b/ab/b; w /b/b/ab/c /b/a /b/b; off b/2.1 /a; w /c/c/a /a/a /c/ab; w /
off a/10.1 /a/b/a; on a/10.1 /b/b; on B/1.1 /; on a/1.2 /c/b/ab; on B/1.1 /c; on a/1.1 /a/b/b; off B/1.1 /b; w /ab/c/ab/ab /b; w /c/a/a/b /c /ab; w /
w /b/a; on B/1.1 /c/b; w /c/c/ab/c /b/a /b/ab/a; off B/1.1 /c/ab/c; on a/1.1 /c/ab/b; on b/2.1 /c/c; w /
on a/1.2 /a/c/ab; on b/2.1 /; on B/1.1 /; drop a/10.1; off b/2.1 /; off a/10.1 /; off a/10.1 /c/b; on a/1.1 /ab/ab/ab; off B/1.1 /b/a; w /
on a/1.2 /; on b/2.1 /b/a/c/a; on a/1.1 /b; w /a / /a; on B/1.1 /; on a/10.1 /; on a/1.2 /ab/b/ab; drop a/1.2; w /c/c/b /ab/c/b/b /b/c; w /
w /a/a/b/b; w /c /c/b/a/b /b/ab/ab/c; on B/1.1 /ab; w /b/ab/b /c/b/c /b; w /
on a/1.1 /c/a/ab/b; on b/2.1 /c/b/a/c; on b/2.1 /a/ab/ab; on B/1.1 /ab/ab/c/b; on b/2.1 /c/b/c/b; on B/1.1 /a/b; w /c /c/c/b/b /c/ab/b; on b/2.1 /ab/c/b; w /
w /a/b/a /c; w /ab; w /
on B/1.1 /b/b; on a/10.1 /b/a; on a/1.1 /b/ab/a; on b/2.1 /b/b/ab/b; w /c/c/ab/a; on a/10.1 /b/ab/b; w /c/a/c /c/a /; w /
w /a/c; off a/10.1 /b/b; w / /a/c/c; on b/2.1 /c/c/c; w / /; on b/2.1 /; drop b/2.1; on a/1.2 /c/a; w /
off a/1.1 /a/c/c; off B/1.1 /; on a/10.1 /a/c/ab; on B/1.1 /a/c; w /ab; off B/1.1 /ab/c/ab; on B/1.1 /a/c/b/c; w /
on B/1.1 /ab/ab/ab; on a/10.1 /c/b/a/c; w /
on a/1.1 /ab/b; on a/1.1 /c/c; w /ab/a /ab/ab; w /b/c/c/a /b /c/ab/b/b; off a/1.2 /; w /
w /a /c/ab/c/a; w /b /b/a/ab; on a/1.1 /b/b/ab; w /
on B/1.1 /; off b/2.1 /ab/b/c; w /a/b /a; w /c/c/c /ab/a/c; on a/1.2 /b; w /a/c; off B/1.1 /ab/a; on B/1.1 /ab/b; w /
w /c/b/a /; w / /b/ab /b; w /b /ab/a; w /
w /ab/a /; off B/1.1 /a; on b/2.1 /ab/ab/c; on b/2.1 /; drop a/1.1; w /ab/ab /c; off b/2.1 /b/a; drop a/1.1; w /c/c/c/b /; w /
on B/1.1 /; on a/1.2 /a/c; on a/1.2 /b; off a/1.1 /c/ab; off a/10.1 /; w /
on a/1.1 /a/b; w /ab /b/ab/c/a; on a/1.2 /ab/c/b/ab; w /c/a /b/ab/ab; w /
on a/1.2 /a; on b/2.1 /ab; on B/1.1 /c; w / /a/a/ab; w /b /b; drop B/1.1; w /c; on B/1.1 /c; w /
w /a /ab/b/ab; on a/10.1 /a; on b/2.1 /; on a/1.1 /; w /ab /ab/c/ab/c; on b/2.1 /b/c; w /
w /b/b/c / /b/a; on a/10.1 /c/a/b; on B/1.1 /a/ab; on a/1.1 /; w /b/ab/a /c/b /ab; w /
w /a/b/b/ab /ab/a/c /; on b/2.1 /b/ab; on a/1.2 /c/a; off a/1.1 /; off a/10.1 /b; on b/2.1 /c; drop a/1.2; w /
256 on a/1.1 /; w /a /; on a/1.2 /c/ab; w / / /b/a/ab; w /b/c/ab; drop a/1.2; off a/1.2 /c; w /
w /ab/ab/c /ab/c/b/a; on a/1.2 /; w /b/c/c /a/c/ab; on a/1.2 /b/c; w /
w /ab/b/b/a; w /ab/c; w /ab/b/a /ab/a/ab/ab; off a/1.2 /; w /; w /
w /b/ab /c/b/a; on a/1.2 /c/a/b; w /ab/a/b /c /c/b; on b/2.1 /b/a/b/c; on a/10.1 /b; off a/10.1 /a/a; w /b/ab/c/ab; w /
drop B/1.1; off b/2.1 /b; drop a/10.1; on a/1.1 /a/ab; on a/1.1 /; off a/1.2 /; w /c/a/a/b /c; on b/2.1 /a/b/c; w /
on a/10.1 /ab/a/a; w /; on a/1.1 /; w /
on a/1.1 /b/a/a; on a/10.1 /ab; on a/1.1 /b; on B/1.1 /ab/a; w /
on b/2.1 /c/a; off a/1.2 /b/ab; on b/2.1 /; w /a /b/ab/ab; w /
on a/10.1 /a/b/a; on a/1.2 /ab; on B/1.1 /; w /b/ab /ab/a/b; on a/1.1 /b/b; on a/1.1 /; w /
w /a/a; off a/1.2 /a/a/b; w /
on a/1.2 /ab; on a/1.1 /b/c/a/b; w / /ab /b; on a/1.2 /c/a/b/a; on a/1.1 /a; off b/2.1 /; on B/1.1 /c/ab/ab; off b/2.1 /c/a; on a/1.2 /ab/c; w /
w / /; w /c; on B/1.1 /; off b/2.1 /ab/a; w /
on a/1.1 /ab/a/ab/b; on b/2.1 /c/b; on B/1.1 /c/a/ab/c; w /ab/b; w /a/ab /c/ab/b/c /b/c; on a/1.2 /b/a; on B/1.1 /; on b/2.1 /ab/c; w /
w /ab/ab/a /b; on B/1.1 /a/b/c/ab; on a/1.1 /a/c/c; on a/1.2 /c/c/ab/ab; on B/1.1 /c/a; on a/1.1 /a/c/c/b; on a/1.1 /; w /
256 on a/1.1 /ab/c; off b/2.1 /b/ab/a; on B/1.1 /ab/c/ab; w /b; off B/1.1 /; w /b/a /c/b /c/b/b/ab; on B/1.1 /; on B/1.1 /c/c/a; off a/10.1 /ab/ab; w /a/c; w /
on a/1.1 /a/ab/ab; off a/1.2 /; w /ab/c /a; w /a/c/b/ab /b/a/b; w / /a/a /a/b/a; off a/1.2 /a; off b/2.1 /b/c; on a/10.1 /c/c/ab/a; on a/10.1 /b/c; w /
off a/10.1 /c/a; w /c/b /c; w /b/b /a/c/ab /b; on b/2.1 /c/c; on b/2.1 /; on b/2.1 /a/a; off B/1.1 /a/c/c; on a/1.2 /c; off B/1.1 /a; w /
w /b/b/c /ab/b/c; w /c /b/ab/a; on B/1.1 /b/b/b/ab; on a/1.1 /c/c/ab/a; w /b/b/a/a /b/c; w /
on a/10.1 /; on a/1.2 /ab/a/ab; w /b/b/c/ab; on a/10.1 /; on b/2.1 /b/a; on a/1.1 /; on a/10.1 /ab/ab; on a/1.1 /ab; w /
on a/1.1 /; off b/2.1 /b; on B/1.1 /b; on a/1.2 /; w /
w /c/ab/b / /; on B/1.1 /b/c/ab/a; on B/1.1 /a/a/ab; on b/2.1 /; w /b/b/c; w /
drop a/1.2; off a/10.1 /c/a; on a/1.2 /; w /ab/ab/a/b; w /c/b/c/b /b /a; w /a/ab/b/a /a /b; w /b/a/a /c /a/a/ab; on b/2.1 /ab; on B/1.1 /c/a/b/c; w /
w /c/ab/a; on a/1.2 /; on b/2.1 /ab/ab; w /
w /ab/b /c/ab/b; w /b; w /
off b/2.1 /a/ab; w /c/ab/ab/a /a/c/b/c /c/c/b/ab; off a/1.2 /b/ab; on a/10.1 /ab/ab; on a/10.1 /c/c/b; w /ab; w /ab/a /a/ab/c; w /
on a/10.1 /b/a; on a/1.1 /ab/c/ab/b; on b/2.1 /; on a/10.1 /ab/ab/a/ab; w /
off a/1.2 /c/a; on a/1.1 /b; on b/2.1 /ab; w /";
