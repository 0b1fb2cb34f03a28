//! Tables of the lines `use` and `include`.

use super::worlds::Case;

/// Lines with `use`.
pub const USES: &str =
    r#"use q@0@@libc.rlib=mini lib c~use q~> mini lib q~> print q~|c.d=/o/libc.rlib: /w/s~|
use q~@0@@libc.rlib=mini lib c~use q~> mini lib q~> print q~|c.d=/o/libc.rlib: /w/s~|
use q~print x~use eq@0@@libc.rlib=mini lib c~use q~> mini lib q~> print q~print x~use eq~> e~|c.d=/o/libc.rlib: /w/s~|
use q~use q@0@@libc.rlib=mini lib c~use q~> mini lib q~> print q~use q~> mini lib q~> print q~|c.d=/o/libc.rlib: /w/s~|
use eq@0@@libc.rlib=mini lib c~use eq~> e~|c.d=/o/libc.rlib: /w/s~|
use@0@@libc.rlib=mini lib c~use~> p~|c.d=/o/libc.rlib: /w/s~|
use @0@@libc.rlib=mini lib c~use ~> p~|c.d=/o/libc.rlib: /w/s~|
use gone@1@{"level":"error","message":"no library gone","line":1}~@c.d=/o/libc.rlib: /w/s~|
use bare@1@{"level":"error","message":"no library bare","line":1}~@c.d=/o/libc.rlib: /w/s~|
use rel@1@{"level":"error","message":"no library rel","line":1}~@c.d=/o/libc.rlib: /w/s~|
use none@1@{"level":"error","message":"no library none","line":1}~@c.d=/o/libc.rlib: /w/s~|
use q @1@{"level":"error","message":"no library q ","line":1}~@c.d=/o/libc.rlib: /w/s~|
use  q@1@{"level":"error","message":"no library  q","line":1}~@c.d=/o/libc.rlib: /w/s~|
use /l/q@1@{"level":"error","message":"no library /l/q","line":1}~@c.d=/o/libc.rlib: /w/s~|
~use none~use q@1@{"level":"error","message":"no library none","line":2}~@c.d=/o/libc.rlib: /w/s~|"#;

/// Lines with `include`.
pub const INCLUDES: &str =
    r#"include one@0@@libc.rlib=mini lib c~| a~| b~|c.d=/o/libc.rlib: /w/s /w/one~|
include two@0@@libc.rlib=mini lib c~| a~| b~|c.d=/o/libc.rlib: /w/s /w/two~|
include empty@0@@libc.rlib=mini lib c~|c.d=/o/libc.rlib: /w/s /w/empty~|
include feeds@0@@libc.rlib=mini lib c~| ~| ~|c.d=/o/libc.rlib: /w/s /w/feeds~|
include sub/x@0@@libc.rlib=mini lib c~| sub x~|c.d=/o/libc.rlib: /w/s /w/sub/x~|
include a b@0@@libc.rlib=mini lib c~| spaced~|c.d=/o/libc.rlib: /w/s /w/a\ b~|
include ../v/x@0@@libc.rlib=mini lib c~| v x~|c.d=/o/libc.rlib: /w/s /v/x~|
include /v/x@0@@libc.rlib=mini lib c~| v x~|c.d=/o/libc.rlib: /w/s /v/x~|
include ./sub//../one@0@@libc.rlib=mini lib c~| a~| b~|c.d=/o/libc.rlib: /w/s /w/one~|
include x$VAR@0@@libc.rlib=mini lib c~| dollar~|c.d=/o/libc.rlib: /w/s /w/x$VAR~|
include one~include one@0@@libc.rlib=mini lib c~| a~| b~| a~| b~|c.d=/o/libc.rlib: /w/s /w/one~|
include s@0@@libc.rlib=mini lib c~| include s~|c.d=/o/libc.rlib: /w/s~|
include none@1@{"level":"error","message":"no file none","line":1}~@c.d=/o/libc.rlib: /w/s /w/none~|
include none~include none@1@{"level":"error","message":"no file none","line":1}~{"level":"error","message":"no file none","line":2}~@c.d=/o/libc.rlib: /w/s /w/none~|
include sub@1@{"level":"error","message":"no file sub","line":1}~@c.d=/o/libc.rlib: /w/s /w/sub~|
include@1@{"level":"error","message":"no file ","line":1}~@c.d=/o/libc.rlib: /w/s /w~|
include @1@{"level":"error","message":"no file ","line":1}~@c.d=/o/libc.rlib: /w/s /w~|
include  one@1@{"level":"error","message":"no file  one","line":1}~@c.d=/o/libc.rlib: /w/s /w/\ one~|
include $VAR/x@0@@libc.rlib=mini lib c~| v x~|c.d=/o/libc.rlib: /w/s /v/x~# env-dep:VAR=/v~|
include $ROOT/x@0@@libc.rlib=mini lib c~| v x~|c.d=/o/libc.rlib: /w/s /v/x~# env-dep:ROOT=/v~|
include $SUB/x@0@@libc.rlib=mini lib c~| sub x~|c.d=/o/libc.rlib: /w/s /w/sub/x~# env-dep:SUB=sub~|
include $NONE/v/x@0@@libc.rlib=mini lib c~| v x~|c.d=/o/libc.rlib: /w/s /v/x~# env-dep:NONE~|
include $EMPTY/v/x@0@@libc.rlib=mini lib c~| v x~|c.d=/o/libc.rlib: /w/s /v/x~# env-dep:EMPTY=~|
include $VAR@1@{"level":"error","message":"no file $VAR","line":1}~@c.d=/o/libc.rlib: /w/s /v~# env-dep:VAR=/v~|
include $VARx/x@1@{"level":"error","message":"no file $VARx/x","line":1}~@c.d=/o/libc.rlib: /w/s /x~# env-dep:VARx~|
include $/x@1@{"level":"error","message":"no file $/x","line":1}~@c.d=/o/libc.rlib: /w/s /x~# env-dep:~|
include $VAR/$VAR@1@{"level":"error","message":"no file $VAR/$VAR","line":1}~@c.d=/o/libc.rlib: /w/s /v/$VAR~# env-dep:VAR=/v~|
include one~include $VAR/x~include two~include one~include $VAR/x@0@@libc.rlib=mini lib c~| a~| b~| v x~| a~| b~| a~| b~| v x~|c.d=/o/libc.rlib: /w/s /w/one /v/x /w/two~# env-dep:VAR=/v~|"#;

/// More lines with `include`, with texts that a line of `INCLUDES` cannot contain.
pub static ODD_INCLUDES: &[Case] = &[
    (
        b"include cr",
        0,
        b"",
        b"libc.rlib=mini lib c\n| c\r\n|c.d=/o/libc.rlib: /w/s /w/cr\n|",
    ),
    (
        b"include a\0b",
        1,
        br#"{"level":"error","message":"no file a\u0000b","line":1}
"#,
        b"c.d=/o/libc.rlib: /w/s\n|",
    ),
    (
        b"include $VAR/a\0",
        1,
        br#"{"level":"error","message":"no file $VAR/a\u0000","line":1}
"#,
        b"c.d=/o/libc.rlib: /w/s\n# env-dep:VAR=/v\n|",
    ),
    (
        b"include raw",
        0,
        b"",
        b"libc.rlib=mini lib c\n| \xff\n| r\n|c.d=/o/libc.rlib: /w/s /w/raw\n|",
    ),
];
