//! Tables of the lines `env` and `when`.

/// Lines with `env`.
pub const ENVS: &str =
    r#"env VAR@0@@libc.rlib=mini lib c~env VAR=/v~|c.d=/o/libc.rlib: /w/s~# env-dep:VAR=/v~|
env NONE@0@@libc.rlib=mini lib c~env NONE~|c.d=/o/libc.rlib: /w/s~# env-dep:NONE~|
env EMPTY@0@@libc.rlib=mini lib c~env EMPTY=~|c.d=/o/libc.rlib: /w/s~# env-dep:EMPTY=~|
env PAIR@0@@libc.rlib=mini lib c~env PAIR=p~|c.d=/o/libc.rlib: /w/s~# env-dep:PAIR=p~|
env BOTH@0@@libc.rlib=mini lib c~env BOTH=composed~|c.d=/o/libc.rlib: /w/s~# env-dep:BOTH=composed~|
env DUP@0@@libc.rlib=mini lib c~env DUP=last~|c.d=/o/libc.rlib: /w/s~# env-dep:DUP=last~|
env FEED@0@@libc.rlib=mini lib c~env FEED=x~y~|c.d=/o/libc.rlib: /w/s~# env-dep:FEED=x~y~|
env@0@@libc.rlib=mini lib c~env ~|c.d=/o/libc.rlib: /w/s~# env-dep:~|
env  VAR@0@@libc.rlib=mini lib c~env  VAR~|c.d=/o/libc.rlib: /w/s~# env-dep: VAR~|
env VAR~env PAIR~env VAR@0@@libc.rlib=mini lib c~env VAR=/v~env PAIR=p~env VAR=/v~|c.d=/o/libc.rlib: /w/s~# env-dep:VAR=/v~# env-dep:PAIR=p~|"#;

/// Lines with `when`.
pub const WHENS: &str = r#"when on print x@0@@libc.rlib=mini lib c~print x~|c.d=/o/libc.rlib: /w/s~|
when off print x@0@@libc.rlib=mini lib c~|c.d=/o/libc.rlib: /w/s~|
when feature="f" print x@0@@libc.rlib=mini lib c~print x~|c.d=/o/libc.rlib: /w/s~|
when feature="g" print x@0@@libc.rlib=mini lib c~|c.d=/o/libc.rlib: /w/s~|
when on when feature="f" when on print x@0@@libc.rlib=mini lib c~print x~|c.d=/o/libc.rlib: /w/s~|
when on when off print x@0@@libc.rlib=mini lib c~|c.d=/o/libc.rlib: /w/s~|
when off when on print x@0@@libc.rlib=mini lib c~|c.d=/o/libc.rlib: /w/s~|
when off fail no@0@@libc.rlib=mini lib c~|c.d=/o/libc.rlib: /w/s~|
when off bad@0@@libc.rlib=mini lib c~|c.d=/o/libc.rlib: /w/s~|
when on fail no@1@{"level":"error","message":"no","line":1}~@c.d=/o/libc.rlib: /w/s~|
when on warn old@0@{"level":"warning","message":"old","line":1}~@libc.rlib=mini lib c~|c.d=/o/libc.rlib: /w/s~|
when on bad@1@{"level":"error","message":"unknown line","line":1}~@c.d=/o/libc.rlib: /w/s~|
when@0@@libc.rlib=mini lib c~|c.d=/o/libc.rlib: /w/s~|
when @0@@libc.rlib=mini lib c~|c.d=/o/libc.rlib: /w/s~|
when on@0@@libc.rlib=mini lib c~|c.d=/o/libc.rlib: /w/s~|
when on @0@@libc.rlib=mini lib c~|c.d=/o/libc.rlib: /w/s~|
when on #@0@@libc.rlib=mini lib c~|c.d=/o/libc.rlib: /w/s~|
when on when@0@@libc.rlib=mini lib c~|c.d=/o/libc.rlib: /w/s~|
when  print x@0@@libc.rlib=mini lib c~print x~|c.d=/o/libc.rlib: /w/s~|
when on  print x@1@{"level":"error","message":"unknown line","line":1}~@c.d=/o/libc.rlib: /w/s~|
when on when on@0@@libc.rlib=mini lib c~|c.d=/o/libc.rlib: /w/s~|
whenon print x@1@{"level":"error","message":"unknown line","line":1}~@c.d=/o/libc.rlib: /w/s~|
Wwhen on print x@1@{"level":"error","message":"unknown line","line":1}~@c.d=/o/libc.rlib: /w/s~|
when on use q@0@@libc.rlib=mini lib c~use q~> mini lib q~> print q~|c.d=/o/libc.rlib: /w/s~|
when off use none@0@@libc.rlib=mini lib c~|c.d=/o/libc.rlib: /w/s~|
when on include one@0@@libc.rlib=mini lib c~| a~| b~|c.d=/o/libc.rlib: /w/s /w/one~|
when off include none@0@@libc.rlib=mini lib c~|c.d=/o/libc.rlib: /w/s~|
when on env VAR@0@@libc.rlib=mini lib c~env VAR=/v~|c.d=/o/libc.rlib: /w/s~# env-dep:VAR=/v~|
when off env VAR@0@@libc.rlib=mini lib c~|c.d=/o/libc.rlib: /w/s~|
when on print  x @0@@libc.rlib=mini lib c~print  x ~|c.d=/o/libc.rlib: /w/s~|
~#~when on include none@1@{"level":"error","message":"no file none","line":3}~@c.d=/o/libc.rlib: /w/s /w/none~|"#;
