// Class programs that break a rule, a line each: the rule and the place of the class, the records and functions, and the classes.

/// A record or a function that breaks a rule.
pub const DECLARATIONS: &str = "\
V1 # struct A { B b; }; # class c returns int params 1 { slot 0 int v; block 0 { return s0; } } class main returns Void params 1 { slot 0 int p; block 0 { return Void(); } }
V1 # struct A { B b; }; struct B { int n; }; # class c returns int params 1 { slot 0 int v; block 0 { return s0; } } class main returns Void params 1 { slot 0 int p; block 0 { return Void(); } }
V1 # struct A { int n; bool n; }; # class c returns int params 1 { slot 0 int v; block 0 { return s0; } } class main returns Void params 1 { slot 0 int p; block 0 { return Void(); } }
V1 # struct A { int n; }; struct A { int m; }; # class c returns int params 1 { slot 0 int v; block 0 { return s0; } } class main returns Void params 1 { slot 0 int p; block 0 { return Void(); } }
V1 # struct A { A a; }; # class c returns int params 1 { slot 0 int v; block 0 { return s0; } } class main returns Void params 1 { slot 0 int p; block 0 { return Void(); } }
V1 # struct Packet { int n; }; # class c returns int params 1 { slot 0 int v; block 0 { return s0; } } class main returns Void params 1 { slot 0 int p; block 0 { return Void(); } }
V1 # struct now { int n; }; # class c returns int params 1 { slot 0 int v; block 0 { return s0; } } class main returns Void params 1 { slot 0 int p; block 0 { return Void(); } }
V2 0 # struct c { int n; }; # class c returns int params 1 { slot 0 int v; block 0 { return s0; } } class main returns Void params 1 { slot 0 int p; block 0 { return Void(); } }
V1 # int g(int n) { return m; } # class c returns int params 1 { slot 0 int v; block 0 { return s0; } } class main returns Void params 1 { slot 0 int p; block 0 { return Void(); } }
V1 # int g(int n) { return true; } # class c returns int params 1 { slot 0 int v; block 0 { return s0; } } class main returns Void params 1 { slot 0 int p; block 0 { return Void(); } }
V1 # int g(int n) { } # class c returns int params 1 { slot 0 int v; block 0 { return s0; } } class main returns Void params 1 { slot 0 int p; block 0 { return Void(); } }
V1 # int g(int n, int n) { return n; } # class c returns int params 1 { slot 0 int v; block 0 { return s0; } } class main returns Void params 1 { slot 0 int p; block 0 { return Void(); } }
V1 # int g(int g) { return 1; } # class c returns int params 1 { slot 0 int v; block 0 { return s0; } } class main returns Void params 1 { slot 0 int p; block 0 { return Void(); } }
V1 # int g(int c) { return 1; } # class c returns int params 1 { slot 0 int v; block 0 { return s0; } } class main returns Void params 1 { slot 0 int p; block 0 { return Void(); } }
V1 # int g(int main) { return 1; } # class c returns int params 1 { slot 0 int v; block 0 { return s0; } } class main returns Void params 1 { slot 0 int p; block 0 { return Void(); } }
V1 # int g(int n) { int c = 1; return c; } # class c returns int params 1 { slot 0 int v; block 0 { return s0; } } class main returns Void params 1 { slot 0 int p; block 0 { return Void(); } }
V1 # int g(int n) { return c(1); } # class c returns int params 1 { slot 0 int v; block 0 { return s0; } } class main returns Void params 1 { slot 0 int p; block 0 { return Void(); } }
V1 # int g(int n) { return now(); } # class c returns int params 1 { slot 0 int v; block 0 { return s0; } } class main returns Void params 1 { slot 0 int p; block 0 { return Void(); } }
V1 # int g(int n) { trace(n); return n; } # class c returns int params 1 { slot 0 int v; block 0 { return s0; } } class main returns Void params 1 { slot 0 int p; block 0 { return Void(); } }
V1 # int g(int n) { break; } # class c returns int params 1 { slot 0 int v; block 0 { return s0; } } class main returns Void params 1 { slot 0 int p; block 0 { return Void(); } }
V1 # int g(int n) { throw; } # class c returns int params 1 { slot 0 int v; block 0 { return s0; } } class main returns Void params 1 { slot 0 int p; block 0 { return Void(); } }
V1 # int g(int n) { wait(delay(1)); return n; } # class c returns int params 1 { slot 0 int v; block 0 { return s0; } } class main returns Void params 1 { slot 0 int p; block 0 { return Void(); } }
V1 # int g(int n) { state int k = 1; return k; } # class c returns int params 1 { slot 0 int v; block 0 { return s0; } } class main returns Void params 1 { slot 0 int p; block 0 { return Void(); } }
V1 # int g(Future<int> n) { return 1; } # class c returns int params 1 { slot 0 int v; block 0 { return s0; } } class main returns Void params 1 { slot 0 int p; block 0 { return Void(); } }
V1 # Future<int> g(int n) { return n; } # class c returns int params 1 { slot 0 int v; block 0 { return s0; } } class main returns Void params 1 { slot 0 int p; block 0 { return Void(); } }
V1 # A g(int n) { return A(n); } # class c returns int params 1 { slot 0 int v; block 0 { return s0; } } class main returns Void params 1 { slot 0 int p; block 0 { return Void(); } }
V2 0 # int c(int n) { return n; } # class c returns int params 1 { slot 0 int v; block 0 { return s0; } } class main returns Void params 1 { slot 0 int p; block 0 { return Void(); } }
V2 1 # int main(int n) { return n; } # class c returns int params 1 { slot 0 int v; block 0 { return s0; } } class main returns Void params 1 { slot 0 int p; block 0 { return Void(); } }
V1 # int g(int n) { while (true) { } } # class c returns int params 1 { slot 0 int v; block 0 { return s0; } } class main returns Void params 1 { slot 0 int p; block 0 { return Void(); } }
V1 # int g(int n) { if (n == 0) { return 1; } } # class c returns int params 1 { slot 0 int v; block 0 { return s0; } } class main returns Void params 1 { slot 0 int p; block 0 { return Void(); } }
V1 # int g(int n) { R r; return 1; } # class c returns int params 1 { slot 0 int v; block 0 { return s0; } } class main returns Void params 1 { slot 0 int p; block 0 { return Void(); } }
V1 # int g(int n) { randomInt(0, 1); return 1; } # class c returns int params 1 { slot 0 int v; block 0 { return s0; } } class main returns Void params 1 { slot 0 int p; block 0 { return Void(); } }
V1 # int g(int n) { return randomInt(0, 1); } # class c returns int params 1 { slot 0 int v; block 0 { return s0; } } class main returns Void params 1 { slot 0 int p; block 0 { return Void(); } }
V1 # struct A1 { int n; }; struct A2 { A1 a; }; struct A3 { A2 a; }; struct A4 { A3 a; }; struct A5 { A4 a; }; struct A6 { A5 a; }; struct A7 { A6 a; }; struct A8 { A7 a; }; struct A9 { A8 a; }; struct A10 { A9 a; }; struct A11 { A10 a; }; struct A12 { A11 a; }; struct A13 { A12 a; }; struct A14 { A13 a; }; struct A15 { A14 a; }; struct A16 { A15 a; }; struct A17 { A16 a; }; # class main returns Void params 1 { slot 0 int p; block 0 { return Void(); } }
";

/// A class whose head breaks a rule, or no `main`.
pub const HEADS: &str = "\
V2 1 # - # class c returns int params 1 { slot 0 int v; block 0 { return s0; } } class f returns int params 1 { slot 0 int v; block 0 { return s0; } } class main returns Void params 1 { slot 0 int p; block 0 { return Void(); } }
V2 1 # - # class c returns int params 1 { slot 0 int v; block 0 { return s0; } } class R returns int params 1 { slot 0 int v; block 0 { return s0; } } class main returns Void params 1 { slot 0 int p; block 0 { return Void(); } }
V2 1 # - # class c returns int params 1 { slot 0 int v; block 0 { return s0; } } class Packet returns int params 1 { slot 0 int v; block 0 { return s0; } } class main returns Void params 1 { slot 0 int p; block 0 { return Void(); } }
V2 1 # - # class c returns int params 1 { slot 0 int v; block 0 { return s0; } } class now returns int params 1 { slot 0 int v; block 0 { return s0; } } class main returns Void params 1 { slot 0 int p; block 0 { return Void(); } }
V2 1 # - # class c returns int params 1 { slot 0 int v; block 0 { return s0; } } class c returns int params 1 { slot 0 int v; block 0 { return s0; } } class main returns Void params 1 { slot 0 int p; block 0 { return Void(); } }
V2 1 # - # class c returns int params 1 { slot 0 int v; block 0 { return s0; } } class trace returns int params 1 { slot 0 int v; block 0 { return s0; } } class main returns Void params 1 { slot 0 int p; block 0 { return Void(); } }
V2 1 # - # class c returns int params 1 { slot 0 int v; block 0 { return s0; } } class timed_out returns int params 1 { slot 0 int v; block 0 { return s0; } } class main returns Void params 1 { slot 0 int p; block 0 { return Void(); } }
V2 2 # - # class c returns int params 1 { slot 0 int v; block 0 { return s0; } } class main returns int params 1 { slot 0 int v; block 0 { return s0; } } class main returns Void params 1 { slot 0 int p; block 0 { return Void(); } }
V2 0 # - # class c returns int params 3 { slot 0 int v; slot 1 int x; block 0 { return 1; } } class main returns Void params 1 { slot 0 int p; block 0 { return Void(); } }
V2 0 # - # class c returns int params 1 { slot 0 int v; slot 1 Q x; block 0 { return 1; } } class main returns Void params 1 { slot 0 int p; block 0 { return Void(); } }
V2 0 # - # class c returns int params 1 { slot 0 int v; local 0 Q; block 0 { return 1; } } class main returns Void params 1 { slot 0 int p; block 0 { return Void(); } }
V2 0 # - # class c returns int params 1 { slot 0 int v; slot 1 Future<Q> x; block 0 { return 1; } } class main returns Void params 1 { slot 0 int p; block 0 { return Void(); } }
V2 0 # - # class c returns int params 1 { slot 0 int v; local 0 Future<Q>; block 0 { return 1; } } class main returns Void params 1 { slot 0 int p; block 0 { return Void(); } }
V2 0 # - # class c returns int params 1 { slot 0 int v; slot 1 Promise<Future<Q>> x; block 0 { return 1; } } class main returns Void params 1 { slot 0 int p; block 0 { return Void(); } }
V2 0 # - # class c returns int params 1 { slot 0 int v; local 0 Promise<Future<Q>>; block 0 { return 1; } } class main returns Void params 1 { slot 0 int p; block 0 { return Void(); } }
V2 0 # - # class c returns int params 1 { slot 0 int v; slot 1 f x; block 0 { return 1; } } class main returns Void params 1 { slot 0 int p; block 0 { return Void(); } }
V2 0 # - # class c returns int params 1 { slot 0 int v; local 0 f; block 0 { return 1; } } class main returns Void params 1 { slot 0 int p; block 0 { return Void(); } }
V2 0 # - # class c returns int params 1 { slot 0 int v; slot 1 c x; block 0 { return 1; } } class main returns Void params 1 { slot 0 int p; block 0 { return Void(); } }
V2 0 # - # class c returns int params 1 { slot 0 int v; local 0 c; block 0 { return 1; } } class main returns Void params 1 { slot 0 int p; block 0 { return Void(); } }
V2 # - # class main returns int params 1 { slot 0 int p; block 0 { return 1; } }
V2 # - # class main returns Void params 0 { block 0 { return Void(); } }
V2 # - # class main returns Void params 2 { slot 0 int p; slot 1 int q; block 0 { return Void(); } }
V2 # - # class main returns Void params 1 { slot 0 bool p; block 0 { return Void(); } }
V2 # - # class mein returns Void params 1 { slot 0 int p; block 0 { return Void(); } }
V2 0 # int main(int n) { return n; } # class main returns Void params 1 { slot 0 int p; block 0 { return Void(); } }
V2 # struct main { int n; }; # class c returns int params 1 { slot 0 int v; block 0 { return s0; } }
";

/// Slots, locals, groups and blocks that are not there.
pub const NAMED: &str = "\
V3 0 # - # local 0 int; block 0 { set l0 = s1; return 1; }
V3 0 # - # local 0 int; block 0 { set l0 = 1 + f(s1 * 2); return 1; }
V3 0 # - # local 0 int; block 0 { act trace(s1); return 1; }
V3 0 # - # local 0 int; block 0 { act f(s1); return 1; }
V3 0 # - # local 0 int; block 0 { test (s1 == 1) goto 1 else 1; } block 1 { return 2; }
V3 0 # - # local 0 int; block 0 { return -(s1); }
V3 0 # - # local 0 int; block 0 { do l0 = randomInt(s1, 2); return 1; }
V3 0 # - # local 0 int; block 0 { set s0 = s1; return 1; }
V7 0 # - # local 0 int; block 0 { do s0 = now(); return 1; }
V3 0 # - # local 0 int; local 1 Future<Void>; block 0 { choose 1; } block 1 { return 1; } group 1 { callback 0 wait(delay(s1)) goto 1; }
V3 0 # - # local 0 int; block 0 { set s1 = 2; return 1; }
V3 0 # - # local 0 int; block 0 { do s1 = now(); return 1; }
V3 0 # - # local 0 int; block 0 { choose 1; } block 1 { return 1; } group 1 { callback 0 wait(c(1)) into s1 goto 1; }
V3 0 # - # local 0 int; block 0 { set l0 = 1; set l0 = l1; return 1; }
V3 0 # - # local 0 int; block 0 { set l0 = 1; set l0 = 1 + f(l1 * 2); return 1; }
V3 0 # - # local 0 int; block 0 { set l0 = 1; act trace(l1); return 1; }
V3 0 # - # local 0 int; block 0 { set l0 = 1; act f(l1); return 1; }
V3 0 # - # local 0 int; block 0 { set l0 = 1; test (l1 == 1) goto 1 else 1; } block 1 { return 2; }
V3 0 # - # local 0 int; block 0 { set l0 = 1; return -(l1); }
V3 0 # - # local 0 int; block 0 { set l0 = 1; do l0 = randomInt(l1, 2); return 1; }
V3 0 # - # local 0 int; block 0 { set l0 = 1; set s0 = l1; return 1; }
V7 0 # - # local 0 int; block 0 { do l0 = now(); return 1; }
V3 0 # - # local 0 int; block 0 { set l0 = 1; choose 1; } block 1 { return 1; } group 1 { callback 0 wait(delay(l1)) goto 1; }
V3 0 # - # local 0 int; block 0 { set l1 = 2; return 1; }
V3 0 # - # local 0 int; block 0 { do l1 = now(); return 1; }
V3 0 # - # local 0 int; block 0 { choose 1; } block 1 { return 1; } group 1 { callback 0 wait(c(1)) into l1 goto 1; }
V7 0 # - # local 0 int; block 0 { throw file_error(); } block 1 { return l0; }
V3 0 # - # slot 1 R r; block 0 { set s1 = R(1); set s2.n = 2; return 1; }
V3 0 # - # local 0 Promise<int>; block 0 { new l1; return 1; }
V3 0 # - # slot 1 Promise<int> q; block 0 { new s2; return 1; }
V3 0 # - # local 0 Promise<int>; block 0 { new l0; act l1.send(1); return 1; }
V3 0 # - # local 0 int; block 0 { drop l1; return 1; }
V3 0 # - # local 0 int; block 0 { drop l0, l1; return 1; }
V3 0 # - # local 0 Error; block 0 catch 1 error l1 drop () { return 1; } block 1 { return 2; }
V3 0 # - # local 0 int; block 0 catch 1 drop (l1) { return 1; } block 1 { return 2; }
V3 0 # - # block 0 catch 2 drop () { return 1; } block 1 { return 2; }
V3 0 # - # block 0 { goto 2; } block 1 { return 2; }
V3 0 # - # block 0 { pass 2; } block 1 { return 2; }
V3 0 # - # block 0 { test (true) goto 2 else 1; } block 1 { return 2; }
V3 0 # - # block 0 { test (true) goto 1 else 2; } block 1 { return 2; }
V3 0 # - # block 0 { choose 1; } block 1 { return 2; } group 1 { callback 0 wait(delay(1)) goto 2; }
V3 0 # - # block 0 { choose 2; } block 1 { return 2; } group 1 { callback 0 wait(delay(1)) goto 1; }
V3 0 # - # local 0 int; block 0 { throw file_error(); } block 1 { return l1; }
V3 0 # - # block 0 { choose 0; }
V3 0 # - # block 0 { return s4294967295; }
V3 0 # - # block 0 { goto 4294967295; }
V3 0 # - # local 0 int; block 0 { drop l4294967295; return 1; }
V3 0 # - # block 0 { throw l0; }
V3 0 # - # block 0 { return l0.n; }
V3 0 # - # block 0 { return s1.size(); }
";

/// Ways back, groups that are not chosen once, and catch parts.
pub const BLOCKS: &str = "\
V4 0 # - # block 0 { goto 1; } block 1 { goto 0; } block 2 { return 1; }
V4 0 # - # block 0 { goto 1; } block 1 { test (true) goto 0 else 2; } block 2 { return 1; }
V4 0 # - # block 0 { goto 1; } block 1 { test (true) goto 2 else 0; } block 2 { return 1; }
V6 0 # - # block 0 { goto 1; } block 1 catch 0 drop () { return 1; } block 2 { return 2; }
V4 0 # - # block 0 { goto 1; } block 1 { goto 1; } block 2 { return 1; }
V4 0 # - # block 0 { goto 1; } block 1 { test (true) goto 1 else 2; } block 2 { return 1; }
V4 0 # - # block 0 { goto 1; } block 1 { test (true) goto 2 else 1; } block 2 { return 1; }
V6 0 # - # block 0 { goto 1; } block 1 catch 1 drop () { return 1; } block 2 { return 2; }
V3 0 # - # block 0 { choose 1; } block 1 { return 1; } 
V3 0 # - # block 0 { choose 1; } block 1 { choose 2; } 
V3 0 # - # block 0 { choose 1; } block 1 { choose 1; } 
V3 0 # - # block 0 { choose 1; } block 1 { choose 2; } group 1 { callback 0 wait(delay(1)) goto 1; }
V5 0 # - # block 0 { choose 1; } block 1 { choose 1; } group 1 { callback 0 wait(delay(1)) goto 1; }
V5 0 # - # block 0 { choose 1; } block 1 { return 1; } group 1 { callback 0 wait(delay(1)) goto 1; } group 2 { callback 1 wait(delay(2)) goto 1; }
V5 0 # - # block 0 { choose 1; } block 1 { choose 1; } group 1 { callback 0 wait(delay(1)) goto 1; } group 2 { callback 1 wait(delay(2)) goto 1; }
V3 0 # - # block 0 { choose 2; } block 1 { return 1; } 
V3 0 # - # block 0 { choose 2; } block 1 { choose 2; } 
V3 0 # - # block 0 { choose 2; } block 1 { choose 1; } 
V3 0 # - # block 0 { choose 2; } block 1 { return 1; } group 1 { callback 0 wait(delay(1)) goto 1; }
V3 0 # - # block 0 { choose 2; } block 1 { choose 2; } group 1 { callback 0 wait(delay(1)) goto 1; }
V3 0 # - # block 0 { choose 2; } block 1 { choose 1; } group 1 { callback 0 wait(delay(1)) goto 1; }
V5 0 # - # block 0 { choose 2; } block 1 { return 1; } group 1 { callback 0 wait(delay(1)) goto 1; } group 2 { callback 1 wait(delay(2)) goto 1; }
V5 0 # - # block 0 { choose 2; } block 1 { choose 2; } group 1 { callback 0 wait(delay(1)) goto 1; } group 2 { callback 1 wait(delay(2)) goto 1; }
V3 0 # - # block 0 { return 1; } block 1 { choose 2; } 
V3 0 # - # block 0 { return 1; } block 1 { choose 1; } 
V5 0 # - # block 0 { return 1; } block 1 { return 1; } group 1 { callback 0 wait(delay(1)) goto 1; }
V3 0 # - # block 0 { return 1; } block 1 { choose 2; } group 1 { callback 0 wait(delay(1)) goto 1; }
V5 0 # - # block 0 { return 1; } block 1 { return 1; } group 1 { callback 0 wait(delay(1)) goto 1; } group 2 { callback 1 wait(delay(2)) goto 1; }
V5 0 # - # block 0 { return 1; } block 1 { choose 2; } group 1 { callback 0 wait(delay(1)) goto 1; } group 2 { callback 1 wait(delay(2)) goto 1; }
V5 0 # - # block 0 { return 1; } block 1 { choose 1; } group 1 { callback 0 wait(delay(1)) goto 1; } group 2 { callback 1 wait(delay(2)) goto 1; }
V3 0 # - # block 0 { goto 1; } block 1 { choose 2; } 
V3 0 # - # block 0 { goto 1; } block 1 { choose 1; } 
V5 0 # - # block 0 { goto 1; } block 1 { return 1; } group 1 { callback 0 wait(delay(1)) goto 1; }
V3 0 # - # block 0 { goto 1; } block 1 { choose 2; } group 1 { callback 0 wait(delay(1)) goto 1; }
V5 0 # - # block 0 { goto 1; } block 1 { return 1; } group 1 { callback 0 wait(delay(1)) goto 1; } group 2 { callback 1 wait(delay(2)) goto 1; }
V5 0 # - # block 0 { goto 1; } block 1 { choose 2; } group 1 { callback 0 wait(delay(1)) goto 1; } group 2 { callback 1 wait(delay(2)) goto 1; }
V5 0 # - # block 0 { goto 1; } block 1 { choose 1; } group 1 { callback 0 wait(delay(1)) goto 1; } group 2 { callback 1 wait(delay(2)) goto 1; }
V6 0 # - # local 0 int; block 0 catch 1 error l0 drop () { return 1; } block 1 { return 2; }
V6 0 # - # local 0 Void; block 0 catch 1 error l0 drop () { return 1; } block 1 { return 2; }
V6 0 # - # local 0 Future<int>; block 0 catch 1 error l0 drop () { return 1; } block 1 { return 2; }
V6 0 # - # local 0 int; local 1 int; block 0 catch 1 drop (l0, l0) { return 1; } block 1 { return 2; }
V6 0 # - # local 0 int; local 1 int; block 0 catch 1 drop (l0, l1, l0) { return 1; } block 1 { return 2; }
V6 0 # - # local 0 int; local 1 int; block 0 catch 1 drop (l1, l1) { return 1; } block 1 { return 2; }
";

/// Types of expressions, targets, arguments, operands and results.
pub const TYPES: &str = "\
V7 0 # = # block 1 { set s6 = 1; return 1; }
V7 0 # = # block 1 { set s7 = 1; return 1; }
V7 0 # = # block 1 { set s0 = true; return 1; }
V7 0 # = # block 1 { set s6 = true; return 1; }
V7 0 # = # block 1 { set s0 = \"a\"; return 1; }
V7 0 # = # block 1 { set s7 = \"a\"; return 1; }
V7 0 # = # block 1 { set s0 = Void(); return 1; }
V7 0 # = # block 1 { set s0 = R(1); return 1; }
V7 0 # = # block 1 { set s0 = R(true); return 1; }
V7 0 # = # block 1 { set s0 = R(1, 2); return 1; }
V7 0 # = # block 1 { set s0 = s5.m; return 1; }
V7 0 # = # block 1 { set s0 = s0.n; return 1; }
V7 0 # = # block 1 { set s0 = s6.length(); return 1; }
V7 0 # = # block 1 { set s0 = f(true); return 1; }
V7 0 # = # block 1 { set s0 = f(1, 2); return 1; }
V7 0 # = # block 1 { set s0 = g(1); return 1; }
V7 0 # = # block 1 { set s0 = c(1); return 1; }
V7 0 # = # block 1 { set s0 = delay(1); return 1; }
V7 0 # = # block 1 { set s0 = randomInt(0, 2); return 1; }
V7 0 # = # block 1 { set s0 = !s0; return 1; }
V7 0 # = # block 1 { set s0 = !s7; return 1; }
V7 0 # = # block 1 { set s0 = -s7; return 1; }
V7 0 # = # block 1 { set s0 = s0 == 1; return 1; }
V7 0 # = # block 1 { set s6 = s0 == 1; return 1; }
V7 0 # = # block 1 { set s0 = s6 == \"a\"; return 1; }
V7 0 # = # block 1 { set s0 = s7 == s6; return 1; }
V7 0 # = # block 1 { set s0 = s0 < 1; return 1; }
V7 0 # = # block 1 { set s0 = s7 < true; return 1; }
V7 0 # = # block 1 { set s0 = s6 + \"a\"; return 1; }
V7 0 # = # block 1 { set s7 = s6 + \"a\"; return 1; }
V7 0 # = # block 1 { set s0 = s6 + 1; return 1; }
V7 0 # = # block 1 { set s0 = s7 && true; return 1; }
V7 0 # = # block 1 { set s0 = s0 || true; return 1; }
V7 0 # = # block 1 { set s0 = to_string(s0); return 1; }
V7 0 # = # block 1 { set s7 = to_string(s0); return 1; }
V7 0 # = # block 1 { set s0 = operation_failed(); return 1; }
V7 0 # = # block 1 { set s0 = trace(1); return 1; }
V7 0 # = # block 1 { set s0 = s4.getFuture(); return 1; }
V7 0 # = # block 1 { set s0 = s3.getFuture(); return 1; }
V7 0 # = # block 1 { set s0 = main(1); return 1; }
V7 0 # = # block 1 { set s0 = me(); return 1; }
V7 0 # = # block 1 { set s0 = R; return 1; }
V7 0 # = # block 1 { do s1 = randomInt(0, 2); return 1; }
V7 0 # = # block 1 { do s0 = randomInt(0); return 1; }
V7 0 # = # block 1 { do s1 = randomInt(0); return 1; }
V7 0 # = # block 1 { do s0 = randomInt(true, 2); return 1; }
V7 0 # = # block 1 { do s1 = randomInt(true, 2); return 1; }
V7 0 # = # block 1 { do s0 = c(1); return 1; }
V7 0 # = # block 1 { do s0 = c(true); return 1; }
V7 0 # = # block 1 { do s1 = c(true); return 1; }
V7 0 # = # block 1 { do s0 = f(1); return 1; }
V7 0 # = # block 1 { do s1 = f(1); return 1; }
V7 0 # = # block 1 { do s0 = 1; return 1; }
V7 0 # = # block 1 { do s1 = 1; return 1; }
V7 0 # = # block 1 { do s0 = s0; return 1; }
V7 0 # = # block 1 { do s1 = s0; return 1; }
V7 0 # = # block 1 { do s0 = delay(1); return 1; }
V7 0 # = # block 1 { do s1 = delay(1); return 1; }
V7 0 # = # block 1 { do s0 = now(); return 1; }
V7 0 # = # block 1 { do s1 = now(); return 1; }
V7 0 # = # block 1 { do s0 = main(1); return 1; }
V7 0 # = # block 1 { do s1 = main(1); return 1; }
V7 0 # = # block 1 { do s0 = (c(1)); return 1; }
V7 0 # = # block 1 { do s1 = (c(1)); return 1; }
V7 0 # = # block 1 { do s0 = 1 + randomInt(0, 2); return 1; }
V7 0 # = # block 1 { do s1 = 1 + randomInt(0, 2); return 1; }
V7 0 # = # block 1 { do s0 = randomInt(randomInt(0, 1), 2); return 1; }
V7 0 # = # block 1 { do s1 = randomInt(randomInt(0, 1), 2); return 1; }
V7 0 # = # block 1 { do s0 = recv(1); return 1; }
V7 0 # = # block 1 { do s1 = recv(1); return 1; }
V7 0 # = # block 1 { do s0 = Never(); return 1; }
V7 0 # = # block 1 { do s1 = Never(); return 1; }
V7 0 # = # block 1 { do s0 = timed_out(); return 1; }
V7 0 # = # block 1 { do s1 = timed_out(); return 1; }
V7 0 # = # block 1 { new s0; return 1; }
V7 0 # = # block 1 { new s1; return 1; }
V7 0 # = # block 1 { new s2; return 1; }
V7 0 # = # block 1 { new s5; return 1; }
V7 0 # = # block 1 { new s6; return 1; }
V7 0 # = # block 1 { new s7; return 1; }
V7 0 # = # block 1 { new s8; return 1; }
V7 0 # = # block 1 { new s9; return 1; }
V7 0 # = # block 1 { act trace(s5); return 1; }
V7 0 # = # block 1 { act trace(); return 1; }
V7 0 # = # block 1 { act trace(1, 2); return 1; }
V7 0 # = # block 1 { act f(true); return 1; }
V7 0 # = # block 1 { act f(); return 1; }
V7 0 # = # block 1 { act g(1); return 1; }
V7 0 # = # block 1 { act c(1); return 1; }
V7 0 # = # block 1 { act delay(1); return 1; }
V7 0 # = # block 1 { act now(); return 1; }
V7 0 # = # block 1 { act to_string(1); return 1; }
V7 0 # = # block 1 { act R(1); return 1; }
V7 0 # = # block 1 { act send(1, \"a\"); return 1; }
V7 0 # = # block 1 { act s3.send(true); return 1; }
V7 0 # = # block 1 { act s3.send(); return 1; }
V7 0 # = # block 1 { act s3.sendError(1); return 1; }
V7 0 # = # block 1 { act s4.getFuture(); return 1; }
V7 0 # = # block 1 { act s1.send(1); return 1; }
V7 0 # = # block 1 { act s5.n.send(1); return 1; }
V7 0 # = # block 1 { act s0.send(1); return 1; }
V7 0 # = # block 1 { act s6.size(); return 1; }
V7 0 # = # block 1 { act main(1); return 1; }
V7 0 # = # block 1 { act set(1, 2); return 1; }
V7 0 # = # block 1 { act s8.code(); return 1; }
V7 0 # = # block 1 { set s5.n = true; return 1; }
V7 0 # = # block 1 { set s5.m = 1; return 1; }
V7 0 # = # block 1 { set s0.n = 1; return 1; }
V7 0 # = # block 1 { set s8 = 1; return 1; }
V7 0 # = # block 1 { test (s0) goto 2 else 2; } block 2 { return 1; }
V7 0 # = # block 1 { test (c(1)) goto 2 else 2; } block 2 { return 1; }
V7 0 # = # block 1 { return true; } block 2 { return 1; }
V7 0 # = # block 1 { return Void(); } block 2 { return 1; }
V7 0 # = # block 1 { return c(1); } block 2 { return 1; }
V7 0 # = # block 1 { throw s0; } block 2 { return 1; }
V7 0 # = # block 1 { throw f(1); } block 2 { return 1; }
V7 0 # = # block 1 { throw \"a\"; } block 2 { return 1; }
V7 0 # = # block 1 { return x; } block 2 { return 1; }
V7 0 # = # block 1 { choose 1; } group 1 { callback 0 wait(c(1)) goto 1; }
V7 0 # = # block 1 { choose 1; } group 1 { callback 0 wait(c(1)) into s6 goto 1; }
V7 0 # = # block 1 { choose 1; } group 1 { callback 0 wait(c(1)) into s9 goto 1; }
V7 0 # = # block 1 { choose 1; } group 1 { callback 0 wait(s1) goto 1; }
V7 0 # = # block 1 { choose 1; } group 1 { callback 0 wait(s1) into s6 goto 1; }
V7 0 # = # block 1 { choose 1; } group 1 { callback 0 wait(s1) into s9 goto 1; }
V7 0 # = # block 1 { choose 1; } group 1 { callback 0 waitNext(s2) goto 1; }
V7 0 # = # block 1 { choose 1; } group 1 { callback 0 waitNext(s2) into s6 goto 1; }
V7 0 # = # block 1 { choose 1; } group 1 { callback 0 waitNext(s2) into s9 goto 1; }
V7 0 # = # block 1 { choose 1; } group 1 { callback 0 wait(s2) goto 1; }
V7 0 # = # block 1 { choose 1; } group 1 { callback 0 wait(s2) into s0 goto 1; }
V7 0 # = # block 1 { choose 1; } group 1 { callback 0 wait(s2) into s6 goto 1; }
V7 0 # = # block 1 { choose 1; } group 1 { callback 0 wait(s2) into s9 goto 1; }
V7 0 # = # block 1 { choose 1; } group 1 { callback 0 waitNext(s1) goto 1; }
V7 0 # = # block 1 { choose 1; } group 1 { callback 0 waitNext(s1) into s0 goto 1; }
V7 0 # = # block 1 { choose 1; } group 1 { callback 0 waitNext(s1) into s6 goto 1; }
V7 0 # = # block 1 { choose 1; } group 1 { callback 0 waitNext(s1) into s9 goto 1; }
V7 0 # = # block 1 { choose 1; } group 1 { callback 0 wait(s0) goto 1; }
V7 0 # = # block 1 { choose 1; } group 1 { callback 0 wait(s0) into s0 goto 1; }
V7 0 # = # block 1 { choose 1; } group 1 { callback 0 wait(s0) into s6 goto 1; }
V7 0 # = # block 1 { choose 1; } group 1 { callback 0 wait(s0) into s9 goto 1; }
V7 0 # = # block 1 { choose 1; } group 1 { callback 0 wait(delay(1)) into s0 goto 1; }
V7 0 # = # block 1 { choose 1; } group 1 { callback 0 wait(delay(1)) into s6 goto 1; }
V7 0 # = # block 1 { choose 1; } group 1 { callback 0 wait(Never()) into s0 goto 1; }
V7 0 # = # block 1 { choose 1; } group 1 { callback 0 wait(Never()) into s6 goto 1; }
V7 0 # = # block 1 { choose 1; } group 1 { callback 0 waitNext(recv(7)) goto 1; }
V7 0 # = # block 1 { choose 1; } group 1 { callback 0 waitNext(recv(7)) into s0 goto 1; }
V7 0 # = # block 1 { choose 1; } group 1 { callback 0 waitNext(recv(7)) into s6 goto 1; }
V7 0 # = # block 1 { choose 1; } group 1 { callback 0 waitNext(recv(7)) into s9 goto 1; }
V7 0 # = # block 1 { choose 1; } group 1 { callback 0 wait(s3.getFuture()) goto 1; }
V7 0 # = # block 1 { choose 1; } group 1 { callback 0 wait(s3.getFuture()) into s6 goto 1; }
V7 0 # = # block 1 { choose 1; } group 1 { callback 0 wait(s3.getFuture()) into s9 goto 1; }
V7 0 # = # block 1 { choose 1; } group 1 { callback 0 waitNext(s4.getFuture()) goto 1; }
V7 0 # = # block 1 { choose 1; } group 1 { callback 0 waitNext(s4.getFuture()) into s6 goto 1; }
V7 0 # = # block 1 { choose 1; } group 1 { callback 0 waitNext(s4.getFuture()) into s9 goto 1; }
V7 0 # = # block 1 { choose 1; } group 1 { callback 0 wait(c(true)) goto 1; }
V7 0 # = # block 1 { choose 1; } group 1 { callback 0 wait(c(true)) into s0 goto 1; }
V7 0 # = # block 1 { choose 1; } group 1 { callback 0 wait(c(true)) into s6 goto 1; }
V7 0 # = # block 1 { choose 1; } group 1 { callback 0 wait(c(true)) into s9 goto 1; }
V7 0 # = # block 1 { choose 1; } group 1 { callback 0 wait(c(now())) goto 1; }
V7 0 # = # block 1 { choose 1; } group 1 { callback 0 wait(c(now())) into s6 goto 1; }
V7 0 # = # block 1 { choose 1; } group 1 { callback 0 wait(c(now())) into s9 goto 1; }
V7 0 # = # block 1 { choose 1; } group 1 { callback 0 wait(c(c(1))) goto 1; }
V7 0 # = # block 1 { choose 1; } group 1 { callback 0 wait(c(c(1))) into s0 goto 1; }
V7 0 # = # block 1 { choose 1; } group 1 { callback 0 wait(c(c(1))) into s6 goto 1; }
V7 0 # = # block 1 { choose 1; } group 1 { callback 0 wait(c(c(1))) into s9 goto 1; }
V7 0 # = # block 1 { choose 1; } group 1 { callback 0 wait(delay(randomInt(0, 1))) goto 1; }
V7 0 # = # block 1 { choose 1; } group 1 { callback 0 wait(delay(randomInt(0, 1))) into s0 goto 1; }
V7 0 # = # block 1 { choose 1; } group 1 { callback 0 wait(delay(randomInt(0, 1))) into s6 goto 1; }
V7 0 # = # block 1 { choose 1; } group 1 { callback 0 wait(delay(randomInt(0, 1))) into s9 goto 1; }
V7 0 # = # block 1 { choose 1; } group 1 { callback 0 wait(randomInt(0, 1)) goto 1; }
V7 0 # = # block 1 { choose 1; } group 1 { callback 0 wait(randomInt(0, 1)) into s0 goto 1; }
V7 0 # = # block 1 { choose 1; } group 1 { callback 0 wait(randomInt(0, 1)) into s6 goto 1; }
V7 0 # = # block 1 { choose 1; } group 1 { callback 0 wait(randomInt(0, 1)) into s9 goto 1; }
V7 0 # = # block 1 { choose 1; } group 1 { callback 0 wait(main(1)) into s0 goto 1; }
V7 0 # = # block 1 { choose 1; } group 1 { callback 0 wait(main(1)) into s6 goto 1; }
";

/// Places that are read while they are empty.
pub const FILLING: &str = "\
V8 0 # - # slot 1 int x; local 0 int; block 0 { set s1 = l0; return 1; }
V8 0 # - # slot 1 int x; local 0 int; block 0 { set l0 = 1; drop l0; set s1 = l0; return 1; }
V8 0 # - # slot 1 int x; local 0 int; block 0 { set s0 = l0 + 1; return 1; }
V8 0 # - # slot 1 int x; local 0 int; block 0 { set l0 = 1; drop l0; set s0 = l0 + 1; return 1; }
V8 0 # - # slot 1 int x; local 0 int; block 0 { do s1 = randomInt(l0, 2); return 1; }
V8 0 # - # slot 1 int x; local 0 int; block 0 { set l0 = 1; drop l0; do s1 = randomInt(l0, 2); return 1; }
V8 0 # - # slot 1 int x; local 0 int; block 0 { act trace(l0); return 1; }
V8 0 # - # slot 1 int x; local 0 int; block 0 { set l0 = 1; drop l0; act trace(l0); return 1; }
V8 0 # - # slot 1 int x; local 0 int; block 0 { act f(l0); return 1; }
V8 0 # - # slot 1 int x; local 0 int; block 0 { set l0 = 1; drop l0; act f(l0); return 1; }
V8 0 # - # slot 1 int x; local 0 int; block 0 { set l0 = l0; return 1; }
V8 0 # - # slot 1 int x; local 0 int; block 0 { set l0 = 1; drop l0; set l0 = l0; return 1; }
V8 0 # - # slot 1 int x; slot 2 Error e; block 0 { return s1; } block 1 { return 1; }
V8 0 # - # slot 1 int x; slot 2 Error e; block 0 { set s2 = timed_out(); return s1; } block 1 { return 1; }
V8 0 # - # slot 1 int x; slot 2 Error e; block 0 { test (s1 == 1) goto 1 else 1; } block 1 { return 1; }
V8 0 # - # slot 1 int x; slot 2 Error e; block 0 { set s2 = timed_out(); test (s1 == 1) goto 1 else 1; } block 1 { return 1; }
V8 0 # - # slot 1 int x; slot 2 Error e; block 0 { throw s2; } block 1 { return 1; }
V8 0 # - # slot 1 int x; slot 2 Error e; block 0 { set s1 = 1; throw s2; } block 1 { return 1; }
V8 0 # - # slot 1 R r; block 0 { set s1.n = 2; return 1; }
V8 0 # - # slot 1 R r; block 0 { return s1.n; }
V8 0 # - # local 0 Promise<int>; block 0 { act l0.send(1); return 1; }
V8 0 # - # local 0 Promise<int>; block 0 { choose 1; } block 1 { return 1; } group 1 { callback 0 wait(l0.getFuture()) into s0 goto 1; }
V8 0 # - # local 0 Promise<int>; block 0 { choose 1; } block 1 { return 1; } group 1 { callback 0 wait(delay(1)) goto 1; callback 1 wait(l0.getFuture()) into s0 goto 1; }
V8 0 # - # local 0 int; block 0 { set l0 = 1; choose 1; } block 1 { return l0; } group 1 { callback 0 wait(delay(1)) goto 1; }
V8 0 # - # local 0 int; local 1 int; block 0 { choose 1; } block 1 { return l0; } block 2 { return l1; } group 1 { callback 0 wait(c(1)) into l0 goto 1; callback 1 wait(c(2)) into l0 goto 2; }
V8 0 # - # local 0 int; local 1 int; block 0 { choose 1; } block 1 { return l0; } block 2 { return l1; } group 1 { callback 0 wait(c(1)) into l0 goto 1; callback 1 wait(c(2)) into l1 goto 1; }
V8 0 # - # local 0 int; local 1 int; block 0 { choose 1; } block 1 { return l0; } block 2 { return l1; } group 1 { callback 0 wait(c(1)) into l0 goto 2; callback 1 wait(c(2)) into l0 goto 2; }
V8 0 # - # local 0 int; local 1 int; block 0 { choose 1; } block 1 { return l0; } block 2 { return l1; } group 1 { callback 0 wait(c(1)) into l0 goto 2; callback 1 wait(c(2)) into l1 goto 2; }
V8 0 # - # local 0 int; local 1 int; block 0 { choose 1; } block 1 { return l0; } block 2 { return l1; } group 1 { callback 0 wait(c(1)) into l0 goto 2; callback 1 wait(c(2)) into l0 goto 1; }
V8 0 # - # local 0 int; local 1 int; block 0 { choose 1; } block 1 { return l0; } block 2 { return l1; } group 1 { callback 0 wait(c(1)) into l0 goto 2; callback 1 wait(c(2)) into l1 goto 1; }
V8 0 # - # local 0 int; local 1 int; local 2 Error; block 0 { goto 1; } block 1 catch 2 drop () { set l1 = 2; return 3; } block 2 { return l0; }
V8 0 # - # local 0 int; local 1 int; local 2 Error; block 0 { goto 1; } block 1 catch 2 error l2 drop () { set l1 = 2; return 3; } block 2 { return l0; }
V8 0 # - # local 0 int; local 1 int; local 2 Error; block 0 { goto 1; } block 1 catch 2 drop (l0) { set l1 = 2; return 3; } block 2 { return l0; }
V8 0 # - # local 0 int; local 1 int; local 2 Error; block 0 { goto 1; } block 1 catch 2 error l2 drop (l0) { set l1 = 2; return 3; } block 2 { return l0; }
V8 0 # - # local 0 int; local 1 int; local 2 Error; block 0 { set l0 = 1; goto 1; } block 1 catch 2 drop (l0) { set l1 = 2; return 3; } block 2 { return l0; }
V8 0 # - # local 0 int; local 1 int; local 2 Error; block 0 { set l0 = 1; goto 1; } block 1 catch 2 error l2 drop (l0) { set l1 = 2; return 3; } block 2 { return l0; }
V8 0 # - # local 0 int; local 1 int; local 2 Error; block 0 { set l0 = 1; drop l0; goto 1; } block 1 catch 2 drop () { set l1 = 2; return 3; } block 2 { return l0; }
V8 0 # - # local 0 int; local 1 int; local 2 Error; block 0 { set l0 = 1; drop l0; goto 1; } block 1 catch 2 error l2 drop () { set l1 = 2; return 3; } block 2 { return l0; }
V8 0 # - # local 0 int; local 1 int; local 2 Error; block 0 { set l0 = 1; drop l0; goto 1; } block 1 catch 2 drop (l0) { set l1 = 2; return 3; } block 2 { return l0; }
V8 0 # - # local 0 int; local 1 int; local 2 Error; block 0 { set l0 = 1; drop l0; goto 1; } block 1 catch 2 error l2 drop (l0) { set l1 = 2; return 3; } block 2 { return l0; }
V8 0 # - # local 0 int; local 1 int; local 2 Error; block 0 { goto 1; } block 1 catch 2 drop () { set l1 = 2; return 3; } block 2 { return l1; }
V8 0 # - # local 0 int; local 1 int; local 2 Error; block 0 { goto 1; } block 1 catch 2 error l2 drop () { set l1 = 2; return 3; } block 2 { return l1; }
V8 0 # - # local 0 int; local 1 int; local 2 Error; block 0 { goto 1; } block 1 catch 2 drop (l0) { set l1 = 2; return 3; } block 2 { return l1; }
V8 0 # - # local 0 int; local 1 int; local 2 Error; block 0 { goto 1; } block 1 catch 2 error l2 drop (l0) { set l1 = 2; return 3; } block 2 { return l1; }
V8 0 # - # local 0 int; local 1 int; local 2 Error; block 0 { set l0 = 1; goto 1; } block 1 catch 2 drop () { set l1 = 2; return 3; } block 2 { return l1; }
V8 0 # - # local 0 int; local 1 int; local 2 Error; block 0 { set l0 = 1; goto 1; } block 1 catch 2 error l2 drop () { set l1 = 2; return 3; } block 2 { return l1; }
V8 0 # - # local 0 int; local 1 int; local 2 Error; block 0 { set l0 = 1; goto 1; } block 1 catch 2 drop (l0) { set l1 = 2; return 3; } block 2 { return l1; }
V8 0 # - # local 0 int; local 1 int; local 2 Error; block 0 { set l0 = 1; goto 1; } block 1 catch 2 error l2 drop (l0) { set l1 = 2; return 3; } block 2 { return l1; }
V8 0 # - # local 0 int; local 1 int; local 2 Error; block 0 { set l0 = 1; drop l0; goto 1; } block 1 catch 2 drop () { set l1 = 2; return 3; } block 2 { return l1; }
V8 0 # - # local 0 int; local 1 int; local 2 Error; block 0 { set l0 = 1; drop l0; goto 1; } block 1 catch 2 error l2 drop () { set l1 = 2; return 3; } block 2 { return l1; }
V8 0 # - # local 0 int; local 1 int; local 2 Error; block 0 { set l0 = 1; drop l0; goto 1; } block 1 catch 2 drop (l0) { set l1 = 2; return 3; } block 2 { return l1; }
V8 0 # - # local 0 int; local 1 int; local 2 Error; block 0 { set l0 = 1; drop l0; goto 1; } block 1 catch 2 error l2 drop (l0) { set l1 = 2; return 3; } block 2 { return l1; }
V8 0 # - # local 0 int; local 1 int; local 2 Error; block 0 { goto 1; } block 1 catch 2 drop () { set l1 = 2; return 3; } block 2 { throw l2; }
V8 0 # - # local 0 int; local 1 int; local 2 Error; block 0 { goto 1; } block 1 catch 2 drop (l0) { set l1 = 2; return 3; } block 2 { throw l2; }
V8 0 # - # local 0 int; local 1 int; local 2 Error; block 0 { set l0 = 1; goto 1; } block 1 catch 2 drop () { set l1 = 2; return 3; } block 2 { throw l2; }
V8 0 # - # local 0 int; local 1 int; local 2 Error; block 0 { set l0 = 1; goto 1; } block 1 catch 2 drop (l0) { set l1 = 2; return 3; } block 2 { throw l2; }
V8 0 # - # local 0 int; local 1 int; local 2 Error; block 0 { set l0 = 1; drop l0; goto 1; } block 1 catch 2 drop () { set l1 = 2; return 3; } block 2 { throw l2; }
V8 0 # - # local 0 int; local 1 int; local 2 Error; block 0 { set l0 = 1; drop l0; goto 1; } block 1 catch 2 drop (l0) { set l1 = 2; return 3; } block 2 { throw l2; }
V8 0 # - # local 0 int; block 0 catch 1 drop () { set l0 = 1; return l0; } block 1 { return l0; }
V8 0 # - # local 0 int; block 0 { set l0 = 1; goto 1; } block 1 catch 2 drop () { choose 1; } block 2 { return l0; } group 1 { callback 0 wait(delay(1)) goto 2; }
V8 0 # - # slot 1 int x; block 0 catch 1 drop () { set s1 = 1; choose 1; } block 1 { return s1; } group 1 { callback 0 wait(delay(1)) goto 1; }
V8 0 # - # local 0 int; block 0 { test (true) goto 1 else 2; } block 1 { set l0 = 1; goto 3; } block 2 { goto 3; } block 3 { return l0; }
V8 0 # - # local 0 int; block 0 { test (true) goto 1 else 2; } block 1 { goto 3; } block 2 { set l0 = 2; goto 3; } block 3 { return l0; }
V8 0 # - # local 0 int; block 0 { goto 1; } block 1 { test (true) goto 2 else 3; } block 2 { set l0 = 2; pass 1; } block 3 { return l0; }
V8 0 # - # local 0 int; block 0 { set l0 = 1; goto 1; } block 1 { test (l0 == 1) goto 2 else 3; } block 2 { drop l0; pass 1; } block 3 { set l0 = 2; return 1; }
V8 0 # - # local 0 int; block 0 { test (true) goto 1 else 2; } block 1 { goto 3; } block 2 { goto 3; } block 3 { return l0; }
V8 0 # - # local 0 int; block 0 { goto 1; } block 1 { test (true) goto 2 else 3; } block 2 { pass 1; } block 3 { return l0; }
V8 0 # - # local 0 int; block 0 { set l0 = 1; goto 1; } block 1 { test (l0 == 1) goto 2 else 3; } block 2 { drop l0; pass 1; } block 3 { return 1; }
V8 0 # - # local 0 int; local 1 int; local 2 int; local 3 int; local 4 int; local 5 int; local 6 int; local 7 int; local 8 int; local 9 int; local 10 int; local 11 int; local 12 int; local 13 int; local 14 int; local 15 int; local 16 int; local 17 int; local 18 int; local 19 int; local 20 int; local 21 int; local 22 int; local 23 int; local 24 int; local 25 int; local 26 int; local 27 int; local 28 int; local 29 int; local 30 int; local 31 int; local 32 int; local 33 int; local 34 int; local 35 int; local 36 int; local 37 int; local 38 int; local 39 int; local 40 int; local 41 int; local 42 int; local 43 int; local 44 int; local 45 int; local 46 int; local 47 int; local 48 int; local 49 int; local 50 int; local 51 int; local 52 int; local 53 int; local 54 int; local 55 int; local 56 int; local 57 int; local 58 int; local 59 int; local 60 int; local 61 int; local 62 int; local 63 int; block 0 { set l62 = 1; return l63; }
V8 0 # - # local 0 int; local 1 int; local 2 int; local 3 int; local 4 int; local 5 int; local 6 int; local 7 int; local 8 int; local 9 int; local 10 int; local 11 int; local 12 int; local 13 int; local 14 int; local 15 int; local 16 int; local 17 int; local 18 int; local 19 int; local 20 int; local 21 int; local 22 int; local 23 int; local 24 int; local 25 int; local 26 int; local 27 int; local 28 int; local 29 int; local 30 int; local 31 int; local 32 int; local 33 int; local 34 int; local 35 int; local 36 int; local 37 int; local 38 int; local 39 int; local 40 int; local 41 int; local 42 int; local 43 int; local 44 int; local 45 int; local 46 int; local 47 int; local 48 int; local 49 int; local 50 int; local 51 int; local 52 int; local 53 int; local 54 int; local 55 int; local 56 int; local 57 int; local 58 int; local 59 int; local 60 int; local 61 int; local 62 int; local 63 int; local 64 int; block 0 { set l63 = 1; return l64; }
V8 0 # - # local 0 int; local 1 int; local 2 int; local 3 int; local 4 int; local 5 int; local 6 int; local 7 int; local 8 int; local 9 int; local 10 int; local 11 int; local 12 int; local 13 int; local 14 int; local 15 int; local 16 int; local 17 int; local 18 int; local 19 int; local 20 int; local 21 int; local 22 int; local 23 int; local 24 int; local 25 int; local 26 int; local 27 int; local 28 int; local 29 int; local 30 int; local 31 int; local 32 int; local 33 int; local 34 int; local 35 int; local 36 int; local 37 int; local 38 int; local 39 int; local 40 int; local 41 int; local 42 int; local 43 int; local 44 int; local 45 int; local 46 int; local 47 int; local 48 int; local 49 int; local 50 int; local 51 int; local 52 int; local 53 int; local 54 int; local 55 int; local 56 int; local 57 int; local 58 int; local 59 int; local 60 int; local 61 int; local 62 int; local 63 int; local 64 int; local 65 int; block 0 { set l64 = 1; return l65; }
V8 0 # - # local 0 int; local 1 int; local 2 int; local 3 int; local 4 int; local 5 int; local 6 int; local 7 int; local 8 int; local 9 int; local 10 int; local 11 int; local 12 int; local 13 int; local 14 int; local 15 int; local 16 int; local 17 int; local 18 int; local 19 int; local 20 int; local 21 int; local 22 int; local 23 int; local 24 int; local 25 int; local 26 int; local 27 int; local 28 int; local 29 int; local 30 int; local 31 int; local 32 int; local 33 int; local 34 int; local 35 int; local 36 int; local 37 int; local 38 int; local 39 int; local 40 int; local 41 int; local 42 int; local 43 int; local 44 int; local 45 int; local 46 int; local 47 int; local 48 int; local 49 int; local 50 int; local 51 int; local 52 int; local 53 int; local 54 int; local 55 int; local 56 int; local 57 int; local 58 int; local 59 int; local 60 int; local 61 int; local 62 int; local 63 int; local 64 int; local 65 int; local 66 int; local 67 int; local 68 int; local 69 int; local 70 int; local 71 int; local 72 int; local 73 int; local 74 int; local 75 int; local 76 int; local 77 int; local 78 int; local 79 int; local 80 int; local 81 int; local 82 int; local 83 int; local 84 int; local 85 int; local 86 int; local 87 int; local 88 int; local 89 int; local 90 int; local 91 int; local 92 int; local 93 int; local 94 int; local 95 int; local 96 int; local 97 int; local 98 int; local 99 int; local 100 int; local 101 int; local 102 int; local 103 int; local 104 int; local 105 int; local 106 int; local 107 int; local 108 int; local 109 int; local 110 int; local 111 int; local 112 int; local 113 int; local 114 int; local 115 int; local 116 int; local 117 int; local 118 int; local 119 int; local 120 int; local 121 int; local 122 int; local 123 int; local 124 int; local 125 int; local 126 int; local 127 int; local 128 int; local 129 int; local 130 int; block 0 { set l129 = 1; return l130; }
";

/// Two rules or more: the first one is told.
pub const ORDER: &str = "\
V3 0 # - # local 0 int; block 0 { set s0 = s9; set s0 = true; return 1; }
V3 0 # - # local 0 int; block 0 { set s0 = s9; set s0 = l0; return 1; }
V3 0 # - # local 0 int; block 0 { set s0 = true; set s0 = s9; return 1; }
V7 0 # - # local 0 int; block 0 { set s0 = true; set s0 = l0; return 1; }
V3 0 # - # local 0 int; block 0 { set s0 = l0; set s0 = s9; return 1; }
V7 0 # - # local 0 int; block 0 { set s0 = l0; set s0 = true; return 1; }
V3 0 # - # local 0 int; block 0 { goto 1; } block 1 { set s0 = s9; goto 0; }
V3 0 # - # local 0 int; block 0 { goto 1; } block 1 { set s0 = s9; return 1; } group 1 { callback 0 wait(delay(1)) goto 1; }
V3 0 # - # local 0 int; block 0 { goto 1; } block 1 catch 1 drop () { set s0 = s9; return 1; }
V4 0 # - # local 0 int; block 0 { goto 1; } block 1 { set s0 = true; goto 0; }
V5 0 # - # local 0 int; block 0 { goto 1; } block 1 { set s0 = true; return 1; } group 1 { callback 0 wait(delay(1)) goto 1; }
V6 0 # - # local 0 int; block 0 { goto 1; } block 1 catch 1 drop () { set s0 = true; return 1; }
V4 0 # - # local 0 int; block 0 { goto 1; } block 1 { set s0 = l0; goto 0; }
V5 0 # - # local 0 int; block 0 { goto 1; } block 1 { set s0 = l0; return 1; } group 1 { callback 0 wait(delay(1)) goto 1; }
V6 0 # - # local 0 int; block 0 { goto 1; } block 1 catch 1 drop () { set s0 = l0; return 1; }
V4 0 # - # block 0 { goto 0; } group 1 { callback 0 wait(delay(1)) goto 0; }
V5 0 # - # block 0 catch 0 drop () { return 1; } group 1 { callback 0 wait(delay(1)) goto 0; }
V4 0 # - # block 0 catch 0 drop () { goto 0; }
V3 0 # - # class c returns int params 1 { slot 0 int v; block 0 { return s9; } } class d returns int params 1 { slot 0 int v; block 0 { return s9; } } class main returns Void params 1 { slot 0 int p; block 0 { return Void(); } }
V3 0 # - # class c returns int params 1 { slot 0 int v; block 0 { return s9; } } class d returns int params 1 { slot 0 int v; block 0 { goto 0; } } class main returns Void params 1 { slot 0 int p; block 0 { return Void(); } }
V3 0 # - # class c returns int params 1 { slot 0 int v; block 0 { return s9; } } class d returns int params 1 { slot 0 int v; block 0 { return 1; } group 1 { callback 0 wait(delay(1)) goto 0; } } class main returns Void params 1 { slot 0 int p; block 0 { return Void(); } }
V3 0 # - # class c returns int params 1 { slot 0 int v; block 0 { return s9; } } class d returns int params 1 { slot 0 int v; block 0 catch 0 drop () { return 1; } } class main returns Void params 1 { slot 0 int p; block 0 { return Void(); } }
V3 0 # - # class c returns int params 1 { slot 0 int v; block 0 { return s9; } } class d returns int params 1 { slot 0 int v; block 0 { return true; } } class main returns Void params 1 { slot 0 int p; block 0 { return Void(); } }
V3 0 # - # class c returns int params 1 { slot 0 int v; block 0 { return s9; } } class d returns int params 1 { slot 0 int v; local 0 int; block 0 { return l0; } } class main returns Void params 1 { slot 0 int p; block 0 { return Void(); } }
V3 1 # - # class main returns Void params 1 { slot 0 int p; block 0 { return Void(); } } class c returns int params 1 { slot 0 int v; block 0 { return s9; } }
V2 1 # - # class c returns int params 1 { slot 0 int v; block 0 { return s9; } } class c returns int params 1 { slot 0 int v; block 0 { return 1; } } class main returns Void params 1 { slot 0 int p; block 0 { return Void(); } }
V2 # - # class c returns int params 1 { slot 0 int v; block 0 { return s9; } }
V1 # int g(int n) { return m; } # class c returns int params 1 { slot 0 int v; block 0 { return s9; } } class main returns Void params 1 { slot 0 int p; block 0 { return Void(); } }
V4 0 # - # class c returns int params 1 { slot 0 int v; block 0 { goto 0; } } class d returns int params 1 { slot 0 int v; block 0 { return s9; } } class main returns Void params 1 { slot 0 int p; block 0 { return Void(); } }
V4 0 # - # class c returns int params 1 { slot 0 int v; block 0 { goto 0; } } class d returns int params 1 { slot 0 int v; block 0 { goto 0; } } class main returns Void params 1 { slot 0 int p; block 0 { return Void(); } }
V4 0 # - # class c returns int params 1 { slot 0 int v; block 0 { goto 0; } } class d returns int params 1 { slot 0 int v; block 0 { return 1; } group 1 { callback 0 wait(delay(1)) goto 0; } } class main returns Void params 1 { slot 0 int p; block 0 { return Void(); } }
V4 0 # - # class c returns int params 1 { slot 0 int v; block 0 { goto 0; } } class d returns int params 1 { slot 0 int v; block 0 catch 0 drop () { return 1; } } class main returns Void params 1 { slot 0 int p; block 0 { return Void(); } }
V4 0 # - # class c returns int params 1 { slot 0 int v; block 0 { goto 0; } } class d returns int params 1 { slot 0 int v; block 0 { return true; } } class main returns Void params 1 { slot 0 int p; block 0 { return Void(); } }
V4 0 # - # class c returns int params 1 { slot 0 int v; block 0 { goto 0; } } class d returns int params 1 { slot 0 int v; local 0 int; block 0 { return l0; } } class main returns Void params 1 { slot 0 int p; block 0 { return Void(); } }
V4 1 # - # class main returns Void params 1 { slot 0 int p; block 0 { return Void(); } } class c returns int params 1 { slot 0 int v; block 0 { goto 0; } }
V2 1 # - # class c returns int params 1 { slot 0 int v; block 0 { goto 0; } } class c returns int params 1 { slot 0 int v; block 0 { return 1; } } class main returns Void params 1 { slot 0 int p; block 0 { return Void(); } }
V2 # - # class c returns int params 1 { slot 0 int v; block 0 { goto 0; } }
V1 # int g(int n) { return m; } # class c returns int params 1 { slot 0 int v; block 0 { goto 0; } } class main returns Void params 1 { slot 0 int p; block 0 { return Void(); } }
V5 0 # - # class c returns int params 1 { slot 0 int v; block 0 { return 1; } group 1 { callback 0 wait(delay(1)) goto 0; } } class d returns int params 1 { slot 0 int v; block 0 { return s9; } } class main returns Void params 1 { slot 0 int p; block 0 { return Void(); } }
V5 0 # - # class c returns int params 1 { slot 0 int v; block 0 { return 1; } group 1 { callback 0 wait(delay(1)) goto 0; } } class d returns int params 1 { slot 0 int v; block 0 { goto 0; } } class main returns Void params 1 { slot 0 int p; block 0 { return Void(); } }
V5 0 # - # class c returns int params 1 { slot 0 int v; block 0 { return 1; } group 1 { callback 0 wait(delay(1)) goto 0; } } class d returns int params 1 { slot 0 int v; block 0 { return 1; } group 1 { callback 0 wait(delay(1)) goto 0; } } class main returns Void params 1 { slot 0 int p; block 0 { return Void(); } }
V5 0 # - # class c returns int params 1 { slot 0 int v; block 0 { return 1; } group 1 { callback 0 wait(delay(1)) goto 0; } } class d returns int params 1 { slot 0 int v; block 0 catch 0 drop () { return 1; } } class main returns Void params 1 { slot 0 int p; block 0 { return Void(); } }
V5 0 # - # class c returns int params 1 { slot 0 int v; block 0 { return 1; } group 1 { callback 0 wait(delay(1)) goto 0; } } class d returns int params 1 { slot 0 int v; block 0 { return true; } } class main returns Void params 1 { slot 0 int p; block 0 { return Void(); } }
V5 0 # - # class c returns int params 1 { slot 0 int v; block 0 { return 1; } group 1 { callback 0 wait(delay(1)) goto 0; } } class d returns int params 1 { slot 0 int v; local 0 int; block 0 { return l0; } } class main returns Void params 1 { slot 0 int p; block 0 { return Void(); } }
V5 1 # - # class main returns Void params 1 { slot 0 int p; block 0 { return Void(); } } class c returns int params 1 { slot 0 int v; block 0 { return 1; } group 1 { callback 0 wait(delay(1)) goto 0; } }
V2 1 # - # class c returns int params 1 { slot 0 int v; block 0 { return 1; } group 1 { callback 0 wait(delay(1)) goto 0; } } class c returns int params 1 { slot 0 int v; block 0 { return 1; } } class main returns Void params 1 { slot 0 int p; block 0 { return Void(); } }
V2 # - # class c returns int params 1 { slot 0 int v; block 0 { return 1; } group 1 { callback 0 wait(delay(1)) goto 0; } }
V1 # int g(int n) { return m; } # class c returns int params 1 { slot 0 int v; block 0 { return 1; } group 1 { callback 0 wait(delay(1)) goto 0; } } class main returns Void params 1 { slot 0 int p; block 0 { return Void(); } }
V6 0 # - # class c returns int params 1 { slot 0 int v; block 0 catch 0 drop () { return 1; } } class d returns int params 1 { slot 0 int v; block 0 { return s9; } } class main returns Void params 1 { slot 0 int p; block 0 { return Void(); } }
V6 0 # - # class c returns int params 1 { slot 0 int v; block 0 catch 0 drop () { return 1; } } class d returns int params 1 { slot 0 int v; block 0 { goto 0; } } class main returns Void params 1 { slot 0 int p; block 0 { return Void(); } }
V6 0 # - # class c returns int params 1 { slot 0 int v; block 0 catch 0 drop () { return 1; } } class d returns int params 1 { slot 0 int v; block 0 { return 1; } group 1 { callback 0 wait(delay(1)) goto 0; } } class main returns Void params 1 { slot 0 int p; block 0 { return Void(); } }
V6 0 # - # class c returns int params 1 { slot 0 int v; block 0 catch 0 drop () { return 1; } } class d returns int params 1 { slot 0 int v; block 0 catch 0 drop () { return 1; } } class main returns Void params 1 { slot 0 int p; block 0 { return Void(); } }
V6 0 # - # class c returns int params 1 { slot 0 int v; block 0 catch 0 drop () { return 1; } } class d returns int params 1 { slot 0 int v; block 0 { return true; } } class main returns Void params 1 { slot 0 int p; block 0 { return Void(); } }
V6 0 # - # class c returns int params 1 { slot 0 int v; block 0 catch 0 drop () { return 1; } } class d returns int params 1 { slot 0 int v; local 0 int; block 0 { return l0; } } class main returns Void params 1 { slot 0 int p; block 0 { return Void(); } }
V6 1 # - # class main returns Void params 1 { slot 0 int p; block 0 { return Void(); } } class c returns int params 1 { slot 0 int v; block 0 catch 0 drop () { return 1; } }
V2 1 # - # class c returns int params 1 { slot 0 int v; block 0 catch 0 drop () { return 1; } } class c returns int params 1 { slot 0 int v; block 0 { return 1; } } class main returns Void params 1 { slot 0 int p; block 0 { return Void(); } }
V2 # - # class c returns int params 1 { slot 0 int v; block 0 catch 0 drop () { return 1; } }
V1 # int g(int n) { return m; } # class c returns int params 1 { slot 0 int v; block 0 catch 0 drop () { return 1; } } class main returns Void params 1 { slot 0 int p; block 0 { return Void(); } }
V7 0 # - # class c returns int params 1 { slot 0 int v; block 0 { return true; } } class d returns int params 1 { slot 0 int v; block 0 { return s9; } } class main returns Void params 1 { slot 0 int p; block 0 { return Void(); } }
V7 0 # - # class c returns int params 1 { slot 0 int v; block 0 { return true; } } class d returns int params 1 { slot 0 int v; block 0 { goto 0; } } class main returns Void params 1 { slot 0 int p; block 0 { return Void(); } }
V7 0 # - # class c returns int params 1 { slot 0 int v; block 0 { return true; } } class d returns int params 1 { slot 0 int v; block 0 { return 1; } group 1 { callback 0 wait(delay(1)) goto 0; } } class main returns Void params 1 { slot 0 int p; block 0 { return Void(); } }
V7 0 # - # class c returns int params 1 { slot 0 int v; block 0 { return true; } } class d returns int params 1 { slot 0 int v; block 0 catch 0 drop () { return 1; } } class main returns Void params 1 { slot 0 int p; block 0 { return Void(); } }
V7 0 # - # class c returns int params 1 { slot 0 int v; block 0 { return true; } } class d returns int params 1 { slot 0 int v; block 0 { return true; } } class main returns Void params 1 { slot 0 int p; block 0 { return Void(); } }
V7 0 # - # class c returns int params 1 { slot 0 int v; block 0 { return true; } } class d returns int params 1 { slot 0 int v; local 0 int; block 0 { return l0; } } class main returns Void params 1 { slot 0 int p; block 0 { return Void(); } }
V7 1 # - # class main returns Void params 1 { slot 0 int p; block 0 { return Void(); } } class c returns int params 1 { slot 0 int v; block 0 { return true; } }
V2 1 # - # class c returns int params 1 { slot 0 int v; block 0 { return true; } } class c returns int params 1 { slot 0 int v; block 0 { return 1; } } class main returns Void params 1 { slot 0 int p; block 0 { return Void(); } }
V2 # - # class c returns int params 1 { slot 0 int v; block 0 { return true; } }
V1 # int g(int n) { return m; } # class c returns int params 1 { slot 0 int v; block 0 { return true; } } class main returns Void params 1 { slot 0 int p; block 0 { return Void(); } }
V8 0 # - # class c returns int params 1 { slot 0 int v; local 0 int; block 0 { return l0; } } class d returns int params 1 { slot 0 int v; block 0 { return s9; } } class main returns Void params 1 { slot 0 int p; block 0 { return Void(); } }
V8 0 # - # class c returns int params 1 { slot 0 int v; local 0 int; block 0 { return l0; } } class d returns int params 1 { slot 0 int v; block 0 { goto 0; } } class main returns Void params 1 { slot 0 int p; block 0 { return Void(); } }
V8 0 # - # class c returns int params 1 { slot 0 int v; local 0 int; block 0 { return l0; } } class d returns int params 1 { slot 0 int v; block 0 { return 1; } group 1 { callback 0 wait(delay(1)) goto 0; } } class main returns Void params 1 { slot 0 int p; block 0 { return Void(); } }
V8 0 # - # class c returns int params 1 { slot 0 int v; local 0 int; block 0 { return l0; } } class d returns int params 1 { slot 0 int v; block 0 catch 0 drop () { return 1; } } class main returns Void params 1 { slot 0 int p; block 0 { return Void(); } }
V8 0 # - # class c returns int params 1 { slot 0 int v; local 0 int; block 0 { return l0; } } class d returns int params 1 { slot 0 int v; block 0 { return true; } } class main returns Void params 1 { slot 0 int p; block 0 { return Void(); } }
V8 0 # - # class c returns int params 1 { slot 0 int v; local 0 int; block 0 { return l0; } } class d returns int params 1 { slot 0 int v; local 0 int; block 0 { return l0; } } class main returns Void params 1 { slot 0 int p; block 0 { return Void(); } }
V8 1 # - # class main returns Void params 1 { slot 0 int p; block 0 { return Void(); } } class c returns int params 1 { slot 0 int v; local 0 int; block 0 { return l0; } }
V2 1 # - # class c returns int params 1 { slot 0 int v; local 0 int; block 0 { return l0; } } class c returns int params 1 { slot 0 int v; block 0 { return 1; } } class main returns Void params 1 { slot 0 int p; block 0 { return Void(); } }
V2 # - # class c returns int params 1 { slot 0 int v; local 0 int; block 0 { return l0; } }
V1 # int g(int n) { return m; } # class c returns int params 1 { slot 0 int v; local 0 int; block 0 { return l0; } } class main returns Void params 1 { slot 0 int p; block 0 { return Void(); } }
V2 0 # - # class f returns int params 1 { slot 0 int v; block 0 { return 1; } }
V2 0 # - # class c returns int params 2 { slot 0 int v; block 0 { return 1; } } class c returns int params 1 { slot 0 int v; block 0 { return 1; } } class main returns Void params 1 { slot 0 int p; block 0 { return Void(); } }
";

/// A vector that isn't used as one, or a class that gives nothing and one that gives a value, each taken for the other.
pub const VECTORS_AND_NOTHING: &str = "\
V7 0 # - # local 0 vector<Future<int>>; block 0 { new l0; act l0.push_back(c(1)); choose 1; } block 1 { return 1; } group 1 { callback 0 wait(l0[0]) into s0 goto 1; }
V7 0 # - # block 0 { return; }
V7 0 # - # class c returns void params 1 { slot 0 int v; block 0 { return s0; } } class main returns Void params 1 { slot 0 int p; block 0 { return Void(); } }
V7 0 # - # class c returns void params 1 { slot 0 int v; block 0 { return Void(); } } class main returns Void params 1 { slot 0 int p; block 0 { return Void(); } }
V7 0 # - # class c returns Void params 1 { slot 0 int v; block 0 { return; } } class main returns Void params 1 { slot 0 int p; block 0 { return Void(); } }
V2 # - # class c returns void params 0 { block 0 { return; } } class main returns void params 1 { slot 0 int p; block 0 { return; } }
V7 1 # - # class c returns int params 1 { slot 0 int v; block 0 { return s0; } } class main returns Void params 1 { slot 0 int p; block 0 { return; } }
V7 1 # - # class c returns void params 0 { block 0 { return; } } class main returns Void params 1 { slot 0 int p; local 0 int; block 0 { set l0 = c(); return Void(); } }
V7 1 # - # class c returns void params 0 { block 0 { return; } } class main returns Void params 1 { slot 0 int p; block 0 { choose 1; } block 1 { return Void(); } group 1 { callback 0 wait(c()) goto 1; } }
V7 1 # - # class c returns void params 0 { block 0 { return; } } class main returns Void params 1 { slot 0 int p; block 0 { act trace(c()); return Void(); } }
V7 1 # - # class c returns void params 0 { block 0 { return; } } class main returns Void params 1 { slot 0 int p; block 0 { act c(1); return Void(); } }
V7 1 # - # class c returns int params 1 { slot 0 int v; block 0 { return s0; } } class main returns Void params 1 { slot 0 int p; block 0 { act c(s0); return Void(); } }
V7 1 # - # class c returns void params 0 { block 0 { return; } } class main returns Void params 1 { slot 0 int p; local 0 Future<Void>; block 0 { do l0 = c(); return Void(); } }
V7 0 # - # block 0 { return s0[0]; }
V7 0 # - # local 0 vector<int>; block 0 { new l0; return l0[true]; }
V7 0 # - # local 0 vector<int>; block 0 { new l0; return l0; }
V7 0 # - # local 0 vector<int>; block 0 { new l0; act l0.push_back(true); return 1; }
V7 0 # - # local 0 vector<int>; block 0 { new l0; act l0.push_back(); return 1; }
V7 0 # - # local 0 vector<int>; block 0 { new l0; act l0.clear(1); return 1; }
V7 0 # - # local 0 vector<int>; block 0 { new l0; act l0.send(1); return 1; }
V7 0 # - # local 0 vector<int>; block 0 { new l0; return l0.at(0); }
V7 0 # - # local 0 vector<int>; block 0 { new l0; set l0 = s0; return 1; }
V7 0 # - # local 0 vector<int>; local 1 vector<bool>; block 0 { new l1; set l0 = l1; return 1; }
V7 0 # - # local 0 vector<R>; block 0 { new l0; return l0[0].m; }
V7 0 # - # local 0 vector<int>; block 0 { new l0; test (l0 == l0) goto 1 else 1; } block 1 { return 1; }
V8 0 # - # local 0 vector<int>; block 0 { return l0[0]; }
V8 0 # - # local 0 vector<int>; block 0 { act l0.push_back(1); return 1; }
V3 0 # - # local 0 vector<int>; block 0 { new l0; return l0[1 + l1]; }
V8 0 # - # local 0 vector<int>; local 1 int; block 0 { new l0; return l0[l1]; }
V2 0 # - # local 0 vector<Q>; block 0 { return 1; }
V2 0 # - # slot 1 vector<Future<Q>> x; block 0 { return 1; }
V7 0 # - # local 0 int; block 0 { new l0; return 1; }
V1 # int g(int n) { return; } # class main returns Void params 1 { slot 0 int p; block 0 { return Void(); } }
V1 # int g(vector<int> w) { return w[true]; } # class main returns Void params 1 { slot 0 int p; block 0 { return Void(); } }
V1 # vector<int> g(int n) { return n; } # class main returns Void params 1 { slot 0 int p; block 0 { return Void(); } }
V1 # vector<Future<int>> g(int n) { return g(n); } # class main returns Void params 1 { slot 0 int p; block 0 { return Void(); } }
V1 # struct A { vector<A> a; }; # class main returns Void params 1 { slot 0 int p; block 0 { return Void(); } }
V1 # struct A { vector<B> a; }; # class main returns Void params 1 { slot 0 int p; block 0 { return Void(); } }
";
