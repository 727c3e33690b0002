//! Which names LIST gives: directories in parentheses, mailboxes and other files without.
use crate::runs::{all_answer, all_run};
use std::test::Fail;

const LISTS: &str = r#"
# mailboxes and other files, well-formed or not, and directories
INBOX&bad=*mbx*\r\n&new/.mixmeta&old/|list "" %;list "" *;open bad;open old => INBOX,bad,new,(old);INBOX,bad,new,(old);ill-formed mbx after 0;not a mailbox|INBOX bad new/ new/.mixmeta old/
a=junk&b=\x01\x01\x01\x01\n&c/.mh_sequences&d/.mixmeta/|list "" * => a,b,c,(d)|a b c/ c/.mh_sequences d/ d/.mixmeta/
|list "" *;list "" %;list "" x => none;none;none|
# `*` passes slashes and `%` doesn't; names come by rising bytes
a/b/c&a.b&a-b&B&x/|list "" *;list "" %;list "" %/%;list "" *b;list "" %b => B,(a),a-b,a.b,(a/b),a/b/c,(x);B,(a),a-b,a.b,(x);(a/b);a-b,a.b,(a/b);a-b,a.b|B a-b a.b a/ a/b/ a/b/c x/
a/b/c&a.b&a-b&B&x/|list "" a/%;list "" a/*;list "" a/b/%;list "" a*c;list "" a%c;list "" %/%/%;list "" *% => (a/b);(a/b),a/b/c;a/b/c;a/b/c;none;a/b/c;B,(a),a-b,a.b,(a/b),a/b/c,(x)|B a-b a.b a/ a/b/ a/b/c x/
# the reference stands before the pattern, and a name without wildcards is one
a/b/c&x|list a/ %;list a /%;list a/b/ c;list a/b c;list "" a/b/c;list "" a/b/;list a/b/c x;list * c;list x y => (a/b);(a/b);a/b/c;none;a/b/c;none;none;a/b/c;none|a/ a/b/ a/b/c x
# an empty pattern gives none, whatever the reference
a/x|list "" "";list a "";list * "" => none;none;none|a/ a/x
# a pattern that doesn't end where the name does, or begins with a slash
a/x|list "" a/;list "" /a;list "" a//x;list "" a/x/;list "" *a;list "" */ => none;none;none;none;(a);none|a/ a/x
# INBOX matches in any case, but not as a first part; a file `inbox` is no name
INBOX|list "" inbox;list in box;list "" INBOX;list "" i%;list "" I*x;list "" inbo => INBOX;INBOX;INBOX;INBOX;INBOX;none|INBOX
inbox&INBOX/x&abc|list "" *;list "" inbox;list "" inbox/*;list "" INBOX/*;list "" inb*;list "" ABC => (INBOX),INBOX/x,abc;(INBOX);none;INBOX/x;(INBOX);none|INBOX/ INBOX/x abc inbox
inbox|list "" *;list "" inbox => none;none|inbox
inbox/x|list "" *;list "" inbox/x => none;none|inbox/ inbox/x
# what stands below a mailbox is seen by no name, nor are its own files
a/.mh_sequences&a/1&a/b&a/c/d&e/.mixmeta&e/x&f/.mixindex|list "" *;list "" a/%;list "" e/x => a,e,(f);none;none|a/ a/.mh_sequences a/1 a/b a/c/ a/c/d e/ e/.mixmeta e/x f/ f/.mixindex
1&d/2|list "" * => 1,(d),d/2|1 d/ d/2
# what is no name isn't listed, nor is anything below it
.x&.mailboxlist=a\n&d/.y&.z/a&~a&a~&{b&#c&d/#e&d/~f|list "" *;list "" %;list "" .% => a~,(d),d/#e,d/~f;a~,(d);none|#c .mailboxlist .x .z/ .z/a a~ d/ d/#e d/.y d/~f {b ~a
a%&a*&a"&a\\&a b&a\x7f&a\t|list "" *;list "" a% => a b;a b|a\t a\x20b a" a% a* a\\ a\x7f
\(200:a\)&\(201:b\)|list "" * => \(200:a\)|\(200:a\) \(201:b\)
\(200:a\)/\(54:b\)&\(200:a\)/\(55:c\)|list "" * => (\(200:a\)),\(200:a\)/\(54:b\)|\(200:a\)/ \(200:a\)/\(54:b\) \(200:a\)/\(55:c\)
# after changes
x&d/|create d/y;rename x d/z;delete d/y;list "" * => done;done;done;(d),d/z|d/ d/z
"#;

#[test]
fn names_are_listed(rt: HostRuntime) -> Result<(), Fail> {
    all_run(rt.alloc(), LISTS)
}

const DEEP: &str = r#"
\(127:a/\)b|list "" \(127:a/\)%;list "" \(127:%/\)% => \(127:a/\)b;\(127:a/\)b
"#;

#[test]
fn deep_names_are_listed(rt: HostRuntime) -> Result<(), Fail> {
    all_answer(rt.alloc(), DEEP)
}
