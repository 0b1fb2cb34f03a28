//! Runs of images.

use super::worlds::Case;

/// Images of `/i`, the status of the run of each, its standard output, and its files.
pub const RUNS: &str = r#"@0@@
mini bin s~print x~@0@x~@
print x@0@x~@
print~print ~print  y @0@~~ y ~@
mini lib s~# x~> print y~| print z~use q~env A=b~include one~warn x~fail y~when on print z~Print x~ print x~print ok@0@ok~@
show VAR@0@cargo::rerun-if-env-changed=VAR~cargo::rustc-env=SHOW_VAR=/v~@
show NONE@0@cargo::rerun-if-env-changed=NONE~cargo::rustc-env=SHOW_NONE=~@
show EMPTY@0@cargo::rerun-if-env-changed=EMPTY~cargo::rustc-env=SHOW_EMPTY=~@
show BOTH@0@cargo::rerun-if-env-changed=BOTH~cargo::rustc-env=SHOW_BOTH=composed~@
show DUP@0@cargo::rerun-if-env-changed=DUP~cargo::rustc-env=SHOW_DUP=last~@
show PAIR~show PAIR@0@cargo::rerun-if-env-changed=PAIR~cargo::rustc-env=SHOW_PAIR=p~cargo::rerun-if-env-changed=PAIR~cargo::rustc-env=SHOW_PAIR=p~@
show@0@cargo::rerun-if-env-changed=~cargo::rustc-env=SHOW_=~@
read one@0@cargo::rerun-if-changed=one~cargo::rustc-env=READ=a~@
read two@0@cargo::rerun-if-changed=two~cargo::rustc-env=READ=a~@
read empty@0@cargo::rerun-if-changed=empty~cargo::rustc-env=READ=~@
read feeds@0@cargo::rerun-if-changed=feeds~cargo::rustc-env=READ=~@
read none@0@cargo::rerun-if-changed=none~@
read raw@0@cargo::rerun-if-changed=raw~@
read sub/x@0@cargo::rerun-if-changed=sub/x~cargo::rustc-env=READ=sub x~@
read ../v/x@0@cargo::rerun-if-changed=../v/x~cargo::rustc-env=READ=v x~@
read /v/x@0@cargo::rerun-if-changed=/v/x~cargo::rustc-env=READ=v x~@
read $VAR/x@0@cargo::rerun-if-changed=$VAR/x~@
read@0@cargo::rerun-if-changed=~@
put n text here@0@@n=text here~|
put n@0@@n=~|
put n @0@@n=~|
put a b~put a  c@0@@a=b~|a= c~|
put ... x@0@@...=x~|
put . x@2@@
put .. x@2@@
put a/b x@2@@
put /a x@2@@
put  x@2@@
put@2@@
print a~put n t~put . x~print b~put m t@2@a~@n=t~|
print a~put n t~exit 3~print b~put m t~show VAR@3@a~@n=t~|
print a~exit 0~print b@0@a~@
print a~exit 7~print b@7@a~@
print a~exit 10~print b@10@a~@
print a~exit 99~print b@99@a~@
print a~exit 100~print b@100@a~@
print a~exit 199~print b@199@a~@
print a~exit 249~print b@249@a~@
print a~exit 255~print b@255@a~@
print a~exit 256~print b@2@a~@
print a~exit 260~print b@2@a~@
print a~exit 300~print b@2@a~@
print a~exit 999~print b@2@a~@
print a~exit 1000~print b@2@a~@
print a~exit 01~print b@2@a~@
print a~exit 00~print b@2@a~@
print a~exit 007~print b@2@a~@
print a~exit +1~print b@2@a~@
print a~exit -1~print b@2@a~@
print a~exit  1~print b@2@a~@
print a~exit 1 ~print b@2@a~@
print a~exit ~print b@2@a~@
print a~exit x~print b@2@a~@
print a~exit 1x~print b@2@a~@
print a~exit x1~print b@2@a~@
print a~exit 1:~print b@2@a~@
print a~exit 1/~print b@2@a~@
print a~exit 2147483648~print b@2@a~@
exit@2@@"#;

/// More images and their runs, with texts that a line of `RUNS` cannot contain.
pub static ODD_RUNS: &[Case] = &[
    (b"print x\r\n", 0, b"x\r\n", b""),
    (b"print \xff\n\xffprint b\nprint c\n", 0, b"c\n", b""),
    (
        b"read cr",
        0,
        b"cargo::rerun-if-changed=cr\ncargo::rustc-env=READ=c\r\n",
        b"",
    ),
    (b"put a\0 x", 2, b"", b""),
];
