// Class programs that keep all rules, a line each; and a worked one.

/// Valid ones.
pub const KEPT: &str = "\
ok # - # local 0 int; block 0 { set l0 = s0; return 1; }
ok # - # local 0 int; block 0 { set l0 = 1 + f(s0 * 2); return 1; }
ok # - # local 0 int; block 0 { act trace(s0); return 1; }
ok # - # local 0 int; block 0 { act f(s0); return 1; }
ok # - # local 0 int; block 0 { test (s0 == 1) goto 1 else 1; } block 1 { return 2; }
ok # - # local 0 int; block 0 { return -(s0); }
ok # - # local 0 int; block 0 { do l0 = randomInt(s0, 2); return 1; }
ok # - # local 0 int; block 0 { set s0 = s0; return 1; }
ok # - # local 0 int; local 1 Future<Void>; block 0 { choose 1; } block 1 { return 1; } group 1 { callback 0 wait(delay(s0)) goto 1; }
ok # - # local 0 int; block 0 { set s0 = 2; return 1; }
ok # - # local 0 int; block 0 { choose 1; } block 1 { return 1; } group 1 { callback 0 wait(c(1)) into s0 goto 1; }
ok # - # local 0 int; block 0 { set l0 = 1; set l0 = l0; return 1; }
ok # - # local 0 int; block 0 { set l0 = 1; set l0 = 1 + f(l0 * 2); return 1; }
ok # - # local 0 int; block 0 { set l0 = 1; act trace(l0); return 1; }
ok # - # local 0 int; block 0 { set l0 = 1; act f(l0); return 1; }
ok # - # local 0 int; block 0 { set l0 = 1; test (l0 == 1) goto 1 else 1; } block 1 { return 2; }
ok # - # local 0 int; block 0 { set l0 = 1; return -(l0); }
ok # - # local 0 int; block 0 { set l0 = 1; do l0 = randomInt(l0, 2); return 1; }
ok # - # local 0 int; block 0 { set l0 = 1; set s0 = l0; return 1; }
ok # - # local 0 int; local 1 Future<Void>; block 0 { set l0 = 1; choose 1; } block 1 { return 1; } group 1 { callback 0 wait(delay(l0)) goto 1; }
ok # - # local 0 int; block 0 { set l0 = 2; return 1; }
ok # - # local 0 int; block 0 { choose 1; } block 1 { return 1; } group 1 { callback 0 wait(c(1)) into l0 goto 1; }
ok # - # slot 1 R r; block 0 { set s1 = R(1); set s1.n = 2; return 1; }
ok # - # local 0 Promise<int>; block 0 { new l0; return 1; }
ok # - # slot 1 Promise<int> q; block 0 { new s1; return 1; }
ok # - # local 0 Promise<int>; block 0 { new l0; act l0.send(1); return 1; }
ok # - # local 0 int; block 0 { drop l0; return 1; }
ok # - # local 0 int; block 0 { drop l0, l0; return 1; }
ok # - # local 0 Error; block 0 catch 1 error l0 drop () { return 1; } block 1 { return 2; }
ok # - # local 0 int; block 0 catch 1 drop (l0) { return 1; } block 1 { return 2; }
ok # - # block 0 catch 1 drop () { return 1; } block 1 { return 2; }
ok # - # block 0 { goto 1; } block 1 { return 2; }
ok # - # block 0 { pass 1; } block 1 { return 2; }
ok # - # block 0 { test (true) goto 1 else 1; } block 1 { return 2; }
ok # - # block 0 { choose 1; } block 1 { return 2; } group 1 { callback 0 wait(delay(1)) goto 1; }
ok # - # block 0 { goto 1; } block 1 { pass 0; } block 2 { return 1; }
ok # - # block 0 { goto 1; } block 1 { choose 1; } block 2 { return 1; } group 1 { callback 0 wait(delay(1)) goto 0; }
ok # - # block 0 { goto 1; } block 1 { pass 1; } block 2 { return 1; }
ok # - # block 0 { goto 1; } block 1 { choose 1; } block 2 { return 1; } group 1 { callback 0 wait(delay(1)) goto 1; }
ok # - # block 0 { goto 1; } block 1 { goto 2; } block 2 { return 1; }
ok # - # block 0 { goto 1; } block 1 { test (true) goto 2 else 2; } block 2 { return 1; }
ok # - # block 0 { goto 1; } block 1 { pass 2; } block 2 { return 1; }
ok # - # block 0 { goto 1; } block 1 { choose 1; } block 2 { return 1; } group 1 { callback 0 wait(delay(1)) goto 2; }
ok # - # block 0 { goto 1; } block 1 catch 2 drop () { return 1; } block 2 { return 2; }
ok # - # block 0 { choose 1; } block 1 { return 1; } group 1 { callback 0 wait(delay(1)) goto 1; }
ok # - # block 0 { choose 1; } block 1 { choose 2; } group 1 { callback 0 wait(delay(1)) goto 1; } group 2 { callback 1 wait(delay(2)) goto 1; }
ok # - # block 0 { choose 2; } block 1 { choose 1; } group 1 { callback 0 wait(delay(1)) goto 1; } group 2 { callback 1 wait(delay(2)) goto 1; }
ok # - # block 0 { return 1; } block 1 { return 1; } 
ok # - # block 0 { return 1; } block 1 { choose 1; } group 1 { callback 0 wait(delay(1)) goto 1; }
ok # - # block 0 { goto 1; } block 1 { return 1; } 
ok # - # block 0 { goto 1; } block 1 { choose 1; } group 1 { callback 0 wait(delay(1)) goto 1; }
ok # - # local 0 int; local 1 int; block 0 catch 1 drop () { return 1; } block 1 { return 2; }
ok # - # local 0 int; local 1 int; block 0 catch 1 drop (l0) { return 1; } block 1 { return 2; }
ok # - # local 0 int; local 1 int; block 0 catch 1 drop (l1) { return 1; } block 1 { return 2; }
ok # - # local 0 int; local 1 int; block 0 catch 1 drop (l0, l1) { return 1; } block 1 { return 2; }
ok # - # local 0 int; local 1 int; block 0 catch 1 drop (l1, l0) { return 1; } block 1 { return 2; }
ok # - # local 0 Error; block 0 catch 1 error l0 drop (l0) { return 1; } block 1 { throw l0; }
ok # = # block 1 { set s0 = 1; return 1; }
ok # = # block 1 { set s0 = s0 + 1; return 1; }
ok # = # block 1 { set s7 = true; return 1; }
ok # = # block 1 { set s6 = \"a\"; return 1; }
ok # = # block 1 { set s0 = s5.n; return 1; }
ok # = # block 1 { set s0 = s6.size(); return 1; }
ok # = # block 1 { set s0 = f(1); return 1; }
ok # = # block 1 { set s0 = now(); return 1; }
ok # = # block 1 { set s0 = -s0; return 1; }
ok # = # block 1 { set s7 = s0 == 1; return 1; }
ok # = # block 1 { set s6 = s6 + \"a\"; return 1; }
ok # = # block 1 { set s0 = s0 % 2; return 1; }
ok # = # block 1 { set s0 = (s0); return 1; }
ok # = # block 1 { set s6 = to_string(s0); return 1; }
ok # = # block 1 { set s0 = to_int(s6); return 1; }
ok # = # block 1 { set s0 = s8.code(); return 1; }
ok # = # block 1 { do s0 = randomInt(0, 2); return 1; }
ok # = # block 1 { do s1 = c(1); return 1; }
ok # = # block 1 { new s3; return 1; }
ok # = # block 1 { new s4; return 1; }
ok # = # block 1 { act trace(1); return 1; }
ok # = # block 1 { act trace(\"a\"); return 1; }
ok # = # block 1 { act trace(true); return 1; }
ok # = # block 1 { act f(1); return 1; }
ok # = # block 1 { act s3.send(1); return 1; }
ok # = # block 1 { act s3.sendError(s8); return 1; }
ok # = # block 1 { act s4.send(1); return 1; }
ok # = # block 1 { set s5.n = 1; return 1; }
ok # = # block 1 { set s5 = R(1); return 1; }
ok # = # block 1 { set s1 = s1; return 1; }
ok # = # block 1 { set s4 = s4; return 1; }
ok # = # block 1 { set s9 = Void(); return 1; }
ok # = # block 1 { set s8 = timed_out(); return 1; }
ok # = # block 1 { test (s7) goto 2 else 2; } block 2 { return 1; }
ok # = # block 1 { test (true == s7) goto 2 else 2; } block 2 { return 1; }
ok # = # block 1 { return s0; } block 2 { return 1; }
ok # = # block 1 { return s5.n; } block 2 { return 1; }
ok # = # block 1 { return now(); } block 2 { return 1; }
ok # = # block 1 { throw s8; } block 2 { return 1; }
ok # = # block 1 { throw timed_out(); } block 2 { return 1; }
ok # = # block 1 { choose 1; } group 1 { callback 0 wait(c(1)) into s0 goto 1; }
ok # = # block 1 { choose 1; } group 1 { callback 0 wait(s1) into s0 goto 1; }
ok # = # block 1 { choose 1; } group 1 { callback 0 waitNext(s2) into s0 goto 1; }
ok # = # block 1 { choose 1; } group 1 { callback 0 wait(delay(1)) goto 1; }
ok # = # block 1 { choose 1; } group 1 { callback 0 wait(delay(1)) into s9 goto 1; }
ok # = # block 1 { choose 1; } group 1 { callback 0 wait(Never()) goto 1; }
ok # = # block 1 { choose 1; } group 1 { callback 0 wait(Never()) into s9 goto 1; }
ok # = # block 1 { choose 1; } group 1 { callback 0 wait(s3.getFuture()) into s0 goto 1; }
ok # = # block 1 { choose 1; } group 1 { callback 0 waitNext(s4.getFuture()) into s0 goto 1; }
ok # = # block 1 { choose 1; } group 1 { callback 0 wait(c(now())) into s0 goto 1; }
ok # = # block 1 { choose 1; } group 1 { callback 0 wait(main(1)) goto 1; }
ok # = # block 1 { choose 1; } group 1 { callback 0 wait(main(1)) into s9 goto 1; }
ok # - # slot 1 int x; local 0 int; block 0 { set l0 = 1; set s1 = l0; return 1; }
ok # - # slot 1 int x; local 0 int; block 0 { set l0 = 1; set s0 = l0 + 1; return 1; }
ok # - # slot 1 int x; local 0 int; block 0 { set l0 = 1; do s1 = randomInt(l0, 2); return 1; }
ok # - # slot 1 int x; local 0 int; block 0 { set l0 = 1; act trace(l0); return 1; }
ok # - # slot 1 int x; local 0 int; block 0 { set l0 = 1; act f(l0); return 1; }
ok # - # slot 1 int x; local 0 int; block 0 { set l0 = 1; set l0 = l0; return 1; }
ok # - # slot 1 int x; slot 2 Error e; block 0 { set s1 = 1; return s1; } block 1 { return 1; }
ok # - # slot 1 int x; slot 2 Error e; block 0 { set s1 = 1; set s2 = timed_out(); return s1; } block 1 { return 1; }
ok # - # slot 1 int x; slot 2 Error e; block 0 { set s1 = 1; test (s1 == 1) goto 1 else 1; } block 1 { return 1; }
ok # - # slot 1 int x; slot 2 Error e; block 0 { set s1 = 1; set s2 = timed_out(); test (s1 == 1) goto 1 else 1; } block 1 { return 1; }
ok # - # slot 1 int x; slot 2 Error e; block 0 { set s2 = timed_out(); throw s2; } block 1 { return 1; }
ok # - # slot 1 int x; slot 2 Error e; block 0 { set s1 = 1; set s2 = timed_out(); throw s2; } block 1 { return 1; }
ok # - # slot 1 R r; block 0 { set s1 = R(1); return s1.n; }
ok # - # local 0 Promise<int>; block 0 { new l0; choose 1; } block 1 { return 1; } group 1 { callback 0 wait(l0.getFuture()) into s0 goto 1; }
ok # - # local 0 Promise<int>; block 0 { new l0; choose 1; } block 1 { return 1; } group 1 { callback 0 wait(delay(1)) goto 1; callback 1 wait(l0.getFuture()) into s0 goto 1; }
ok # - # slot 1 int x; block 0 { set s1 = 1; choose 1; } block 1 { return s1; } group 1 { callback 0 wait(delay(1)) goto 1; }
ok # - # local 0 int; local 1 int; block 0 { choose 1; } block 1 { return l0; } block 2 { return l1; } group 1 { callback 0 wait(c(1)) into l0 goto 1; callback 1 wait(c(2)) into l1 goto 2; }
ok # - # local 0 int; local 1 int; block 0 { choose 1; } block 1 { return l0; } block 2 { return l1; } group 1 { callback 0 wait(c(1)) into l0 goto 1; callback 1 wait(c(2)) into l0 goto 1; }
ok # - # local 0 int; local 1 int; local 2 Error; block 0 { set l0 = 1; goto 1; } block 1 catch 2 drop () { set l1 = 2; return 3; } block 2 { return l0; }
ok # - # local 0 int; local 1 int; local 2 Error; block 0 { set l0 = 1; goto 1; } block 1 catch 2 error l2 drop () { set l1 = 2; return 3; } block 2 { return l0; }
ok # - # local 0 int; local 1 int; local 2 Error; block 0 { goto 1; } block 1 catch 2 error l2 drop () { set l1 = 2; return 3; } block 2 { throw l2; }
ok # - # local 0 int; local 1 int; local 2 Error; block 0 { goto 1; } block 1 catch 2 error l2 drop (l0) { set l1 = 2; return 3; } block 2 { throw l2; }
ok # - # local 0 int; local 1 int; local 2 Error; block 0 { set l0 = 1; goto 1; } block 1 catch 2 error l2 drop () { set l1 = 2; return 3; } block 2 { throw l2; }
ok # - # local 0 int; local 1 int; local 2 Error; block 0 { set l0 = 1; goto 1; } block 1 catch 2 error l2 drop (l0) { set l1 = 2; return 3; } block 2 { throw l2; }
ok # - # local 0 int; local 1 int; local 2 Error; block 0 { set l0 = 1; drop l0; goto 1; } block 1 catch 2 error l2 drop () { set l1 = 2; return 3; } block 2 { throw l2; }
ok # - # local 0 int; local 1 int; local 2 Error; block 0 { set l0 = 1; drop l0; goto 1; } block 1 catch 2 error l2 drop (l0) { set l1 = 2; return 3; } block 2 { throw l2; }
ok # - # local 0 int; local 1 int; local 2 Error; block 0 { goto 1; } block 1 catch 2 drop () { set l1 = 2; return 3; } block 2 { return 1; }
ok # - # local 0 int; local 1 int; local 2 Error; block 0 { goto 1; } block 1 catch 2 error l2 drop () { set l1 = 2; return 3; } block 2 { return 1; }
ok # - # local 0 int; local 1 int; local 2 Error; block 0 { goto 1; } block 1 catch 2 drop (l0) { set l1 = 2; return 3; } block 2 { return 1; }
ok # - # local 0 int; local 1 int; local 2 Error; block 0 { goto 1; } block 1 catch 2 error l2 drop (l0) { set l1 = 2; return 3; } block 2 { return 1; }
ok # - # local 0 int; local 1 int; local 2 Error; block 0 { set l0 = 1; goto 1; } block 1 catch 2 drop () { set l1 = 2; return 3; } block 2 { return 1; }
ok # - # local 0 int; local 1 int; local 2 Error; block 0 { set l0 = 1; goto 1; } block 1 catch 2 error l2 drop () { set l1 = 2; return 3; } block 2 { return 1; }
ok # - # local 0 int; local 1 int; local 2 Error; block 0 { set l0 = 1; goto 1; } block 1 catch 2 drop (l0) { set l1 = 2; return 3; } block 2 { return 1; }
ok # - # local 0 int; local 1 int; local 2 Error; block 0 { set l0 = 1; goto 1; } block 1 catch 2 error l2 drop (l0) { set l1 = 2; return 3; } block 2 { return 1; }
ok # - # local 0 int; local 1 int; local 2 Error; block 0 { set l0 = 1; drop l0; goto 1; } block 1 catch 2 drop () { set l1 = 2; return 3; } block 2 { return 1; }
ok # - # local 0 int; local 1 int; local 2 Error; block 0 { set l0 = 1; drop l0; goto 1; } block 1 catch 2 error l2 drop () { set l1 = 2; return 3; } block 2 { return 1; }
ok # - # local 0 int; local 1 int; local 2 Error; block 0 { set l0 = 1; drop l0; goto 1; } block 1 catch 2 drop (l0) { set l1 = 2; return 3; } block 2 { return 1; }
ok # - # local 0 int; local 1 int; local 2 Error; block 0 { set l0 = 1; drop l0; goto 1; } block 1 catch 2 error l2 drop (l0) { set l1 = 2; return 3; } block 2 { return 1; }
ok # - # slot 1 int x; block 0 { set s1 = 1; goto 1; } block 1 catch 2 drop () { choose 1; } block 2 { return s1; } group 1 { callback 0 wait(delay(1)) goto 2; }
ok # - # local 0 int; block 0 { test (true) goto 1 else 2; } block 1 { set l0 = 1; goto 3; } block 2 { set l0 = 2; goto 3; } block 3 { return l0; }
ok # - # local 0 int; block 0 { set l0 = 1; goto 1; } block 1 { test (true) goto 2 else 3; } block 2 { set l0 = 2; pass 1; } block 3 { return l0; }
ok # - # local 0 int; block 0 { set l0 = 1; goto 1; } block 1 { test (l0 == 1) goto 2 else 3; } block 2 { drop l0; set l0 = 1; pass 1; } block 3 { set l0 = 2; return 1; }
ok # - # local 0 int; block 0 { set l0 = 1; goto 1; } block 1 { test (true) goto 2 else 3; } block 2 { pass 1; } block 3 { return l0; }
ok # - # local 0 int; block 0 { set l0 = 1; goto 1; } block 1 { test (l0 == 1) goto 2 else 3; } block 2 { drop l0; set l0 = 1; pass 1; } block 3 { return 1; }
ok # - # block 0 { return 1; } block 1 { return s0; }
ok # - # slot 1 int x; block 0 { return 1; } block 1 { return s1; }
ok # - # local 0 int; local 1 int; block 0 { set l0 = 1; set l1 = l0; drop l0, l0; drop l0; return l1; }
ok # - # local 0 int; local 1 int; local 2 int; local 3 int; local 4 int; local 5 int; local 6 int; local 7 int; local 8 int; local 9 int; local 10 int; local 11 int; local 12 int; local 13 int; local 14 int; local 15 int; local 16 int; local 17 int; local 18 int; local 19 int; local 20 int; local 21 int; local 22 int; local 23 int; local 24 int; local 25 int; local 26 int; local 27 int; local 28 int; local 29 int; local 30 int; local 31 int; local 32 int; local 33 int; local 34 int; local 35 int; local 36 int; local 37 int; local 38 int; local 39 int; local 40 int; local 41 int; local 42 int; local 43 int; local 44 int; local 45 int; local 46 int; local 47 int; local 48 int; local 49 int; local 50 int; local 51 int; local 52 int; local 53 int; local 54 int; local 55 int; local 56 int; local 57 int; local 58 int; local 59 int; local 60 int; local 61 int; local 62 int; local 63 int; block 0 { set l63 = 1; return l63; }
ok # - # local 0 int; local 1 int; local 2 int; local 3 int; local 4 int; local 5 int; local 6 int; local 7 int; local 8 int; local 9 int; local 10 int; local 11 int; local 12 int; local 13 int; local 14 int; local 15 int; local 16 int; local 17 int; local 18 int; local 19 int; local 20 int; local 21 int; local 22 int; local 23 int; local 24 int; local 25 int; local 26 int; local 27 int; local 28 int; local 29 int; local 30 int; local 31 int; local 32 int; local 33 int; local 34 int; local 35 int; local 36 int; local 37 int; local 38 int; local 39 int; local 40 int; local 41 int; local 42 int; local 43 int; local 44 int; local 45 int; local 46 int; local 47 int; local 48 int; local 49 int; local 50 int; local 51 int; local 52 int; local 53 int; local 54 int; local 55 int; local 56 int; local 57 int; local 58 int; local 59 int; local 60 int; local 61 int; local 62 int; local 63 int; local 64 int; block 0 { set l64 = 1; return l64; }
ok # - # local 0 int; local 1 int; local 2 int; local 3 int; local 4 int; local 5 int; local 6 int; local 7 int; local 8 int; local 9 int; local 10 int; local 11 int; local 12 int; local 13 int; local 14 int; local 15 int; local 16 int; local 17 int; local 18 int; local 19 int; local 20 int; local 21 int; local 22 int; local 23 int; local 24 int; local 25 int; local 26 int; local 27 int; local 28 int; local 29 int; local 30 int; local 31 int; local 32 int; local 33 int; local 34 int; local 35 int; local 36 int; local 37 int; local 38 int; local 39 int; local 40 int; local 41 int; local 42 int; local 43 int; local 44 int; local 45 int; local 46 int; local 47 int; local 48 int; local 49 int; local 50 int; local 51 int; local 52 int; local 53 int; local 54 int; local 55 int; local 56 int; local 57 int; local 58 int; local 59 int; local 60 int; local 61 int; local 62 int; local 63 int; local 64 int; local 65 int; block 0 { set l65 = 1; return l65; }
ok # - # local 0 int; local 1 int; local 2 int; local 3 int; local 4 int; local 5 int; local 6 int; local 7 int; local 8 int; local 9 int; local 10 int; local 11 int; local 12 int; local 13 int; local 14 int; local 15 int; local 16 int; local 17 int; local 18 int; local 19 int; local 20 int; local 21 int; local 22 int; local 23 int; local 24 int; local 25 int; local 26 int; local 27 int; local 28 int; local 29 int; local 30 int; local 31 int; local 32 int; local 33 int; local 34 int; local 35 int; local 36 int; local 37 int; local 38 int; local 39 int; local 40 int; local 41 int; local 42 int; local 43 int; local 44 int; local 45 int; local 46 int; local 47 int; local 48 int; local 49 int; local 50 int; local 51 int; local 52 int; local 53 int; local 54 int; local 55 int; local 56 int; local 57 int; local 58 int; local 59 int; local 60 int; local 61 int; local 62 int; local 63 int; local 64 int; local 65 int; local 66 int; local 67 int; local 68 int; local 69 int; local 70 int; local 71 int; local 72 int; local 73 int; local 74 int; local 75 int; local 76 int; local 77 int; local 78 int; local 79 int; local 80 int; local 81 int; local 82 int; local 83 int; local 84 int; local 85 int; local 86 int; local 87 int; local 88 int; local 89 int; local 90 int; local 91 int; local 92 int; local 93 int; local 94 int; local 95 int; local 96 int; local 97 int; local 98 int; local 99 int; local 100 int; local 101 int; local 102 int; local 103 int; local 104 int; local 105 int; local 106 int; local 107 int; local 108 int; local 109 int; local 110 int; local 111 int; local 112 int; local 113 int; local 114 int; local 115 int; local 116 int; local 117 int; local 118 int; local 119 int; local 120 int; local 121 int; local 122 int; local 123 int; local 124 int; local 125 int; local 126 int; local 127 int; local 128 int; local 129 int; local 130 int; block 0 { set l130 = 1; return l130; }
ok # - # class c returns int params 1 { slot 0 int v; block 0 { return s0; } } class max_int returns int params 1 { slot 0 int v; block 0 { return s0; } } class main returns Void params 1 { slot 0 int p; block 0 { return Void(); } }
ok # - # class c returns int params 1 { slot 0 int v; block 0 { return s0; } } class d returns int params 1 { slot 0 int v; block 0 { return s0; } } class main returns Void params 1 { slot 0 int p; block 0 { return Void(); } }
ok # - # class c returns int params 1 { slot 0 int v; block 0 { return s0; } } class k returns int params 1 { slot 0 int v; block 0 { return s0; } } class main returns Void params 1 { slot 0 int p; block 0 { return Void(); } }
ok # - # class c returns int params 0 { slot 0 int v; slot 1 int x; block 0 { return 1; } } class main returns Void params 1 { slot 0 int p; block 0 { return Void(); } }
ok # - # class c returns int params 1 { slot 0 int v; slot 1 int x; block 0 { return 1; } } class main returns Void params 1 { slot 0 int p; block 0 { return Void(); } }
ok # - # class c returns int params 2 { slot 0 int v; slot 1 int x; block 0 { return 1; } } class main returns Void params 1 { slot 0 int p; block 0 { return Void(); } }
ok # - # class c returns int params 1 { slot 0 int v; slot 1 R x; block 0 { return 1; } } class main returns Void params 1 { slot 0 int p; block 0 { return Void(); } }
ok # - # class c returns int params 1 { slot 0 int v; local 0 R; block 0 { return 1; } } class main returns Void params 1 { slot 0 int p; block 0 { return Void(); } }
ok # - # class c returns R params 1 { slot 0 int v; block 0 { throw timed_out(); } } class main returns Void params 1 { slot 0 int p; block 0 { return Void(); } }
ok # - # class c returns Q params 1 { slot 0 int v; block 0 { throw timed_out(); } } class main returns Void params 1 { slot 0 int p; block 0 { return Void(); } }
ok # - # class c returns int params 1 { slot 0 int v; slot 1 Packet x; block 0 { return 1; } } class main returns Void params 1 { slot 0 int p; block 0 { return Void(); } }
ok # - # class c returns int params 1 { slot 0 int v; local 0 Packet; block 0 { return 1; } } class main returns Void params 1 { slot 0 int p; block 0 { return Void(); } }
ok # - # class c returns Packet params 1 { slot 0 int v; block 0 { throw timed_out(); } } class main returns Void params 1 { slot 0 int p; block 0 { return Void(); } }
ok # - # class c returns Future<Q> params 1 { slot 0 int v; block 0 { throw timed_out(); } } class main returns Void params 1 { slot 0 int p; block 0 { return Void(); } }
ok # - # class c returns int params 1 { slot 0 int v; slot 1 PromiseStream<R> x; block 0 { return 1; } } class main returns Void params 1 { slot 0 int p; block 0 { return Void(); } }
ok # - # class c returns int params 1 { slot 0 int v; local 0 PromiseStream<R>; block 0 { return 1; } } class main returns Void params 1 { slot 0 int p; block 0 { return Void(); } }
ok # - # class c returns PromiseStream<R> params 1 { slot 0 int v; block 0 { throw timed_out(); } } class main returns Void params 1 { slot 0 int p; block 0 { return Void(); } }
ok # - # class c returns Promise<Future<Q>> params 1 { slot 0 int v; block 0 { throw timed_out(); } } class main returns Void params 1 { slot 0 int p; block 0 { return Void(); } }
ok # - # class c returns f params 1 { slot 0 int v; block 0 { throw timed_out(); } } class main returns Void params 1 { slot 0 int p; block 0 { return Void(); } }
ok # - # class c returns c params 1 { slot 0 int v; block 0 { throw timed_out(); } } class main returns Void params 1 { slot 0 int p; block 0 { return Void(); } }
ok # - # class c returns int params 1 { slot 0 int v; slot 1 Void x; block 0 { return 1; } } class main returns Void params 1 { slot 0 int p; block 0 { return Void(); } }
ok # - # class c returns int params 1 { slot 0 int v; local 0 Void; block 0 { return 1; } } class main returns Void params 1 { slot 0 int p; block 0 { return Void(); } }
ok # - # class c returns Void params 1 { slot 0 int v; block 0 { throw timed_out(); } } class main returns Void params 1 { slot 0 int p; block 0 { return Void(); } }
ok # - # class c returns int params 1 { slot 0 int v; slot 1 Error x; block 0 { return 1; } } class main returns Void params 1 { slot 0 int p; block 0 { return Void(); } }
ok # - # class c returns int params 1 { slot 0 int v; local 0 Error; block 0 { return 1; } } class main returns Void params 1 { slot 0 int p; block 0 { return Void(); } }
ok # - # class c returns Error params 1 { slot 0 int v; block 0 { throw timed_out(); } } class main returns Void params 1 { slot 0 int p; block 0 { return Void(); } }
ok # - # class main returns Void params 1 { slot 0 int p; slot 1 int q; block 0 { return Void(); } }
ok # struct A { int n; }; # class c returns int params 1 { slot 0 int v; block 0 { return s0; } } class main returns Void params 1 { slot 0 int p; block 0 { return Void(); } }
ok # int g(int n) { return n; } # class c returns int params 1 { slot 0 int v; block 0 { return s0; } } class main returns Void params 1 { slot 0 int p; block 0 { return Void(); } }
ok # int g(int n) { return g(n); } # class c returns int params 1 { slot 0 int v; block 0 { return s0; } } class main returns Void params 1 { slot 0 int p; block 0 { return Void(); } }
ok # int g(int n) { return h(n); } int h(int n) { return n; } # class c returns int params 1 { slot 0 int v; block 0 { return s0; } } class main returns Void params 1 { slot 0 int p; block 0 { return Void(); } }
ok # A g(int n) { return A(n); } struct A { int n; }; # class c returns int params 1 { slot 0 int v; block 0 { return s0; } } class main returns Void params 1 { slot 0 int p; block 0 { return Void(); } }
ok # int g(int n) { int k; return k; } # class c returns int params 1 { slot 0 int v; block 0 { return s0; } } class main returns Void params 1 { slot 0 int p; block 0 { return Void(); } }
ok # struct A1 { int n; }; struct A2 { A1 a; }; struct A3 { A2 a; }; struct A4 { A3 a; }; struct A5 { A4 a; }; struct A6 { A5 a; }; struct A7 { A6 a; }; struct A8 { A7 a; }; struct A9 { A8 a; }; struct A10 { A9 a; }; struct A11 { A10 a; }; struct A12 { A11 a; }; struct A13 { A12 a; }; struct A14 { A13 a; }; struct A15 { A14 a; }; struct A16 { A15 a; }; # class main returns Void params 1 { slot 0 int p; block 0 { return Void(); } }
ok # - # local 0 vector<int>; block 0 { new l0; act l0.push_back(s0); return l0[0]; }
ok # - # local 0 vector<int>; block 0 { new l0; set l0 = l0; return l0.size(); }
ok # - # slot 1 vector<int> w; block 0 { new s1; act s1.clear(); return s1[s0 - 1]; }
ok # - # local 0 vector<vector<int>>; block 0 { new l0; return l0[s0][l0.size() - 1]; }
ok # - # local 0 vector<R>; block 0 { new l0; act l0.push_back(R(s0)); return l0[0].n; }
ok # struct R { vector<int> w; }; # class c returns int params 1 { slot 0 R v; block 0 { act s0.w.push_back(1); return s0.w[0]; } } class main returns Void params 1 { slot 0 int p; block 0 { return Void(); } }
ok # int g(vector<int> w) { return w[0] + w.size(); } # class c returns int params 1 { slot 0 vector<int> v; block 0 { return g(s0); } } class main returns Void params 1 { slot 0 int p; block 0 { return Void(); } }
ok # - # class c returns void params 0 { block 0 { return; } } class main returns Void params 1 { slot 0 int p; block 0 { act c(); return Void(); } }
ok # - # class c returns void params 1 { slot 0 int v; block 0 { act c(s0 - 1); return; } } class main returns Void params 1 { slot 0 int p; block 0 { act c(s0); return Void(); } }
ok # - # class c returns void params 1 { slot 0 int v; block 0 { test (s0 == 0) goto 1 else 2; } block 1 { return; } block 2 { throw timed_out(); } } class main returns Void params 1 { slot 0 int p; block 0 { act c(s0); return Void(); } }
ok # - # class c returns void params 1 { slot 0 int v; block 0 { choose 1; } block 1 { return; } group 1 { callback 0 wait(delay(s0)) goto 1; } } class main returns Void params 1 { slot 0 int p; block 0 { act c(1); return Void(); } }
ok # - # class c returns vector<int> params 0 { local 0 vector<int>; block 0 { new l0; return l0; } } class main returns Void params 1 { slot 0 int p; local 0 vector<int>; block 0 { choose 1; } block 1 { return Void(); } group 1 { callback 0 wait(c()) into l0 goto 1; } }
ok # - # class c returns int params 1 { slot 0 int v; block 0 { return s0; } } class main returns Void params 1 { slot 0 int p; local 0 Future<int>; block 0 { do l0 = c(s0); return Void(); } }
ok # - # local 0 vector<Future<int>>; block 0 { new l0; return 1; }
ok # - # local 0 Promise<vector<int>>; local 1 vector<int>; block 0 { new l0; new l1; act l0.send(l1); return 1; }
";

/// The class text of two classes, whole, and with one instruction changed.
pub const WORKED: &str = "\
ok # - # class one returns int params 1 { slot 0 int v; block 0 { return s0; } } class main returns Void params 1 { slot 0 int p; local 0 int; local 1 int; block 0 { choose 1; } block 1 { act trace(l0); drop l0; goto 3; } block 2 { act trace(l1); drop l1; goto 3; } block 3 { return Void(); } group 1 { callback 0 wait(one(7)) into l0 goto 1; callback 1 wait(one(8)) into l1 goto 2; } }
V4 1 # - # class one returns int params 1 { slot 0 int v; block 0 { return s0; } } class main returns Void params 1 { slot 0 int p; local 0 int; local 1 int; block 0 { choose 1; } block 1 { act trace(l0); drop l0; goto 3; } block 2 { act trace(l1); drop l1; goto 1; } block 3 { return Void(); } group 1 { callback 0 wait(one(7)) into l0 goto 1; callback 1 wait(one(8)) into l1 goto 2; } }
V8 1 # - # class one returns int params 1 { slot 0 int v; block 0 { return s0; } } class main returns Void params 1 { slot 0 int p; local 0 int; local 1 int; block 0 { choose 1; } block 1 { act trace(l0); drop l0; goto 3; } block 2 { act trace(l1); drop l1; pass 1; } block 3 { return Void(); } group 1 { callback 0 wait(one(7)) into l0 goto 1; callback 1 wait(one(8)) into l1 goto 2; } }
V4 1 # - # class one returns int params 1 { slot 0 int v; block 0 { return s0; } } class main returns Void params 1 { slot 0 int p; local 0 int; local 1 int; block 0 { choose 1; } block 1 { act trace(l0); drop l0; goto 0; } block 2 { act trace(l1); drop l1; goto 3; } block 3 { return Void(); } group 1 { callback 0 wait(one(7)) into l0 goto 1; callback 1 wait(one(8)) into l1 goto 2; } }
V8 1 # - # class one returns int params 1 { slot 0 int v; block 0 { return s0; } } class main returns Void params 1 { slot 0 int p; local 0 int; local 1 int; block 0 { choose 1; } block 1 { act trace(l0); drop l0; goto 3; } block 2 { act trace(l1); drop l1; goto 3; } block 3 { return Void(); } group 1 { callback 0 wait(one(7)) into l1 goto 1; callback 1 wait(one(8)) into l1 goto 2; } }
ok # - # class one returns int params 1 { slot 0 int v; block 0 { return s0; } } class main returns Void params 1 { slot 0 int p; local 0 int; local 1 int; block 0 { choose 1; } block 1 { act trace(l0); drop l0; goto 3; } block 2 { act trace(l1); drop l1; goto 3; } block 3 { return Void(); } group 1 { callback 0 wait(one(7)) into l0 goto 3; callback 1 wait(one(8)) into l1 goto 2; } }
V5 1 # - # class one returns int params 1 { slot 0 int v; block 0 { return s0; } } class main returns Void params 1 { slot 0 int p; local 0 int; local 1 int; block 0 { goto 3; } block 1 { act trace(l0); drop l0; goto 3; } block 2 { act trace(l1); drop l1; goto 3; } block 3 { return Void(); } group 1 { callback 0 wait(one(7)) into l0 goto 1; callback 1 wait(one(8)) into l1 goto 2; } }
V8 1 # - # class one returns int params 1 { slot 0 int v; block 0 { return s0; } } class main returns Void params 1 { slot 0 int p; local 0 int; local 1 int; block 0 { choose 1; } block 1 { act trace(l1); drop l0; goto 3; } block 2 { act trace(l1); drop l1; goto 3; } block 3 { return Void(); } group 1 { callback 0 wait(one(7)) into l0 goto 1; callback 1 wait(one(8)) into l1 goto 2; } }
ok # - # class one returns int params 1 { slot 0 int v; block 0 { return s0; } } class main returns Void params 1 { slot 0 int p; local 0 int; local 1 int; block 0 { choose 1; } block 1 { act trace(l0); drop l0, l0; goto 3; } block 2 { act trace(l1); drop l1; goto 3; } block 3 { return Void(); } group 1 { callback 0 wait(one(7)) into l0 goto 1; callback 1 wait(one(8)) into l1 goto 2; } }
V3 1 # - # class one returns int params 1 { slot 0 int v; block 0 { return s0; } } class main returns Void params 1 { slot 0 int p; local 0 int; local 1 int; block 0 { choose 1; } block 1 { act trace(l0); drop l0; goto 3; } block 2 { act trace(l1); drop l2; goto 3; } block 3 { return Void(); } group 1 { callback 0 wait(one(7)) into l0 goto 1; callback 1 wait(one(8)) into l1 goto 2; } }
V7 1 # - # class one returns int params 1 { slot 0 int v; block 0 { return s0; } } class main returns Void params 1 { slot 0 int p; local 0 int; local 1 bool; block 0 { choose 1; } block 1 { act trace(l0); drop l0; goto 3; } block 2 { act trace(l1); drop l1; goto 3; } block 3 { return Void(); } group 1 { callback 0 wait(one(7)) into l0 goto 1; callback 1 wait(one(8)) into l1 goto 2; } }
V7 1 # - # class one returns int params 1 { slot 0 int v; block 0 { return s0; } } class main returns Void params 1 { slot 0 int p; local 0 int; local 1 int; block 0 { choose 1; } block 1 { act trace(l0); drop l0; goto 3; } block 2 { act trace(l1); drop l1; goto 3; } block 3 { return Void(); } group 1 { callback 0 wait(one(7)) into l0 goto 1; callback 1 wait(one(true)) into l1 goto 2; } }
";
