//! The text of the empty set.

pub(crate) const EMPTY_TEXT: &str = "nef3 1 8 12 6 2
v -2048 -2048 -2048 1 o -
s 0 0 1 o -
s 0 1 0 o -
s 1 0 0 o -
a 2 1 0 0 1 o n o
a 0 2 0 1 0 o n o
a 1 0 1 0 0 o n o
v -2048 -2048 2048 1 o -
s 0 0 -1 o -
s 0 1 0 o -
s 1 0 0 o -
a 2 1 0 0 1 o o n
a 2 0 0 1 0 o n o
a 0 1 1 0 0 o n o
v -2048 2048 -2048 1 o -
s 0 -1 0 o -
s 0 0 1 o -
s 1 0 0 o -
a 0 2 0 0 1 o n o
a 1 2 0 1 0 o o n
a 1 0 1 0 0 o n o
v -2048 2048 2048 1 o -
s 0 -1 0 o -
s 0 0 -1 o -
s 1 0 0 o -
a 0 2 0 0 1 o o n
a 2 1 0 1 0 o o n
a 0 1 1 0 0 o n o
v 2048 -2048 -2048 1 o -
s -1 0 0 o -
s 0 0 1 o -
s 0 1 0 o -
a 2 0 0 0 1 o n o
a 0 1 0 1 0 o n o
a 2 1 1 0 0 o o n
v 2048 -2048 2048 1 o -
s -1 0 0 o -
s 0 0 -1 o -
s 0 1 0 o -
a 2 0 0 0 1 o o n
a 1 0 0 1 0 o n o
a 1 2 1 0 0 o o n
v 2048 2048 -2048 1 o -
s -1 0 0 o -
s 0 -1 0 o -
s 0 0 1 o -
a 0 1 0 0 1 o n o
a 0 2 0 1 0 o o n
a 2 1 1 0 0 o o n
v 2048 2048 2048 1 o -
s -1 0 0 o -
s 0 -1 0 o -
s 0 0 -1 o -
a 0 1 0 0 1 o o n
a 2 0 0 1 0 o o n
a 1 2 1 0 0 o o n
e 0 0 1 0 o
e 0 1 2 0 o
e 0 2 4 0 o
e 1 1 3 0 o
e 1 2 5 0 o
e 2 1 3 1 o
e 2 2 6 0 o
e 3 2 7 0 o
e 4 1 5 1 o
e 4 2 6 1 o
e 5 2 7 1 o
e 6 2 7 2 o
f 0 0 1 2048 o 1 0
c 0 0 4 0 6 0 2 0
f 0 1 0 2048 o 1 0
c 0 1 1 1 5 1 4 1
f 1 0 0 2048 o 1 0
c 0 2 2 2 3 2 1 2
f 0 0 1 -2048 o 0 1
c 1 0 5 0 7 0 3 0
f 0 1 0 -2048 o 0 1
c 2 1 3 1 7 1 6 1
f 1 0 0 -2048 o 0 1
c 4 2 6 2 7 2 5 2
w o
w n
";
