// Advice by the refused token and those before it: the forms that C++ and Flow have and this language hasn't.

use crate::brackets::is_of_record;
use crate::source::Source;
use flow_tree::token::{Sign, Token};

/// Tokens with what is written instead. The last one is refused; those before it stand right in front of it. `NAME`, `NUMBER` and
/// `TEXT` are any of their kind, `ANY` is any token, and `END` the end of the text; `FIRST w` says that the statement or declaration
/// begins with `w`, and that anything may stand between; `FIELD` and `TOP` say that they stand in a record, or outside of all brackets.
const FORMS: &str = "\
FIELD =|a field has no value of its own: all are given by `A(1)`
FIELD (|a record has fields alone; it is made by `A(1)`
TOP const ANY|a constant is a function: `int LIMIT() { return 5; }`
TOP ) ;|the body stands here, `{ .. }`: what stands further down may be called before
TOP NAME =|a constant is a function, `int LIMIT() { return 5; }`; a variable stands in a function or an actor
TOP NAME ;|a variable stands in a function or an actor
= wait|a `wait` declares its variable: `int y = wait(f);`, then `x = y;`
= waitNext|a `waitNext` declares its variable: `int y = waitNext(s);`, then `x = y;`
if ( wait|a wait is a statement by itself: `bool b = wait(f);`, then `if (b)`
while ( wait|a wait is a statement by itself: `loop { bool b = wait(f()); if (!b) { break; } .. }`
state wait|the variable stands in front: `state int x = wait(f);`
state NAME =|a variable has a type: `state int n = 1;`
state NAME ;|a variable has a type: `state int n = 1;`
return wait|a wait is a statement by itself: `int x = wait(f);`, then `return x;`
wait|a wait is a statement by itself: `int x = wait(f);`, then use `x`
waitNext|a wait is a statement by itself: `int x = waitNext(s);`
Void ;|the value is `Void()`
Void )|the value is `Void()`
ACTOR ANY|an actor gives a future, `ACTOR Future<int> f(..)`, or nothing, `ACTOR void f(..)`
< void|the type is `Void`: `Future<Void>`
( void|no parameters are `()`; and there are no casts
return void|`return Void();` gives a value, `return;` ends an actor that gives nothing
static ANY|leave `static` out
inline ANY|leave `inline` out
extern ANY|leave `extern` out
const NAME NAME|values are copied: leave `const` out
const ANY|values are copied: leave `const` out
constexpr ANY|leave `constexpr` out, and give the value: `state int n = 5;`
unsigned ANY|whole numbers are `int`, of 64 bits
long ANY|whole numbers are `int`, of 64 bits
) const|leave `const` out
( const|values are copied: leave `const` out
&|values are copied: leave `&` out; there are no signs on bits
FIRST NAME *|there is no `*=`: `x = x * 2;`; and there are no pointers
FIRST NAME /|there is no `/=`: `x = x / 2;`
FIRST NAME %|there is no `%=`: `x = x % 2;`
*|there are no pointers: values are copied
deterministicRandom ( ) - >|`int n = randomInt(0, 10);`
g_random - >|`int n = randomInt(0, 10);`
- >|there are no pointers: a field is `a.x`
-deterministicRandom ( ) - >|`int n = randomInt(0, 10);`
g_random - >|`int n = randomInt(0, 10);`
- >|there are no pointers: a field is `a.x`
catch ( .|a handler names its error: `catch (Error& e)`
catch ( NAME|a handler names its error: `catch (Error& e)`
catch ( Error NAME|the error is taken by reference: `catch (Error& e)`
catch ( Error )|a handler names its error: `catch (Error& e)`
Error & )|a handler names its error: `catch (Error& e)`
catch {|a handler names its error: `catch (Error& e) { .. }`
NUMBER . NUMBER|numbers are whole; time is counted in ticks: `delay(5)`
NUMBER . NAME|numbers are whole; time is counted in ticks: `delay(5)`
NUMBER .|numbers are whole; time is counted in ticks: `delay(5)`
NUMBER NAME|a number is decimal and whole, without letters behind it
NUMBER NUMBER|a number begins with no zero, and has no blank or `'` in it
= [|there are no functions without a name: write an actor
( [|there are no functions without a name: write an actor
, [|there are no functions without a name: write an actor
return [|there are no functions without a name: write an actor
delete [|there are no pointers: leave it out
NAME NAME [|there are no arrays: `vector<int> v;`, and `v.push_back(1);` appends a value
FIRST NAME [|no element is assigned to, and none is called on: take it first, `int x = v[0];`
[|there are no arrays: `vector<int> v;`, and `v.push_back(1);` appends a value
[ ]|an element is `v[0]`
]|an element is `v[0]`
= vector|a vector begins empty: `vector<int> v;`
return vector|a vector begins empty: `vector<int> v;`, then `return v;`
FIRST switch {|there is no `switch`: write `if (x == 1) { .. } else if (x == 2) { .. }`
FIRST do {|there is no `do`: write `loop { ..; if (!(..)) { break; } }`
FIRST class {|there are no classes: a record is `struct A { int x; };`, what it does are functions and actors
FIRST class ANY|there are no classes: a record is `struct A { int x; };`, what it does are functions and actors
FIRST enum {|there is no `enum`: a function gives each number its name, `int RED() { return 1; }`
FIRST enum ANY|there is no `enum`: a function gives each number its name, `int RED() { return 1; }`
FIRST namespace ANY|there are no namespaces: leave it out
FIRST using ANY|there are no namespaces: leave it out
FIRST template ANY|there are no templates: write it for the types that you need
FIRST typedef ANY|there is no `typedef`: write the type
FIRST struct (|a record has fields alone; it is made by `A(1)`
FIRST struct =|a field has no value of its own: all are given by `A(1)`
FIRST cout <|print one value: `trace(x);`
FIRST TraceEvent .|print one value: `trace(x);`
FIRST std <|a text is a `string`, a container a `vector<int>`
FIRST Optional <|there is no `Optional`: declare a record with a `bool` in it
FIRST Reference <|there are no pointers: values are copied
FIRST map <|there are no maps: declare a record, or an actor that keeps it
FIRST when NAME|a branch has a wait: `when (int x = wait(f)) { .. }`
FIRST when (|a branch has a wait: `when (wait(f)) { .. }`
FIRST when )|a branch has a wait: `when (wait(f)) { .. }`
FIRST when .|a branch has a wait: `when (int x = wait(f)) { .. }`
FIRST when NUMBER|a branch has a wait: `when (wait(f)) { .. }`
choose { ANY|a `choose` has branches alone: `choose { when (wait(f)) { .. } when (wait(g)) { .. } }`
FIRST choose ANY|a `choose` has branches alone: `choose { when (wait(f)) { .. } when (wait(g)) { .. } }`
FIRST new ANY|there are no pointers: a record is made by `A(1)`
FIRST delete ANY|there are no pointers: leave it out
= new|there are no pointers: a record is made by `A(1)`
new NAME|there are no pointers: a record is made by `A(1)`
FIRST vector (|a vector begins empty: `vector<int> v;`, and `v.push_back(1);` appends a value
> NAME = {|a vector begins empty: `vector<int> v;`, and `v.push_back(1);` appends a value
= {|a record is made by its name: `A a = A(1);`
+ =|`+=` has no blank in it
- =|`-=` has no blank in it
< <|there are no signs on bits; a value is printed by `trace(x);`
> >|there are no signs on bits
; ++|the sign stands behind: `x++`
; --|the sign stands behind: `x--`
{ ++|the sign stands behind: `x++`
{ --|the sign stands behind: `x--`
++|it is a statement by itself: `x++;`
--|it is a statement by itself: `x--;`
NAME =|equal is `==`; an assignment is a statement by itself: `x = y;`
) .|a statement is a call by a name, `f(..)`, or on a variable, `v.f(..)`: keep the result in a variable first
FIRST int ,|declare one variable in a statement
FIRST bool ,|declare one variable in a statement
FIRST string ,|declare one variable in a statement
FIRST state ,|declare one variable in a statement
state state|one `state` will do
state|`state` stands in front of the type: `state int n = 1;`
( int|there are no casts: `to_int(s)` reads a text, `to_string(n)` writes a number
( string|there are no casts: `to_int(s)` reads a text, `to_string(n)` writes a number
} ;|a `;` stands behind a record alone: leave it out
TEXT TEXT|texts are put together by `+`
} else|an `else` stands behind the body of an `if`
else|an `else` stands behind the body of an `if`
vector ANY|a vector's type is `vector<int>`; nothing is named `vector`
vector|a vector's type is `vector<int>`; nothing is named `vector`
void|what gives nothing is an actor, `ACTOR void f(..)`; a function gives a value
FIRST struct ANY|a record is `struct A { int x; string s; };`
";

// Whether a token is what a word of the table stands for.
fn is_token(token: Option<&Token>, word: &[u8]) -> bool {
    match token {
        None => word == b"END".as_slice(),
        Some(Token::Name(name)) => word == b"NAME".as_slice() || word == name.bytes(),
        Some(Token::Number(_)) => word == b"NUMBER".as_slice(),
        Some(Token::Text(_)) => word == b"TEXT".as_slice(),
        Some(Token::Word(one)) => word == one.spelling(),
        Some(Token::Sign(sign)) => word == sign.spelling(),
    }
}

// Whether a word stands for the token with this number.
fn stands(source: Source<'_>, number: usize, word: &str) -> bool {
    word == "ANY" || is_token(source.token(number), word.as_bytes())
}

/// Whether the token with this number ends a statement or a declaration, or begins a body.
pub fn is_border(source: Source<'_>, number: usize) -> bool {
    source.is_sign(number, Sign::Semicolon)
        || source.is_sign(number, Sign::OpenCurly)
        || source.is_sign(number, Sign::CloseCurly)
}

/// The number of the token with which the statement or declaration begins in which the token with this number stands.
pub fn first_of(source: Source<'_>, number: usize) -> usize {
    for back in 0..number {
        let first = number.saturating_sub(back);
        if is_border(source, first.saturating_sub(1)) {
            return first;
        }
    }
    0
}

// Whether the tokens up to the refused one are those of a row: those that begin it, and the last.
fn fits_first(source: Source<'_>, number: usize, words: &str) -> bool {
    let Some((first, last)) = words.split_once(' ') else {
        return false;
    };
    let begin = first_of(source, number);
    begin < number && stands(source, begin, first) && stands(source, number, last)
}

// Whether the tokens up to the refused one are those of a row, one right behind the other.
fn fits_row(source: Source<'_>, number: usize, words: &str) -> bool {
    let count = words.split_whitespace().count();
    let Some(begin) = number.saturating_add(1).checked_sub(count) else {
        return false;
    };
    for (at, word) in words.split_whitespace().enumerate() {
        if !stands(source, begin.saturating_add(at), word) {
            return false;
        }
    }
    true
}

// Whether a row of the table is about the refused token, in front of which this bracket is open.
fn fits(source: Source<'_>, number: usize, open: Option<usize>, words: &str) -> bool {
    if let Some(rest) = words.strip_prefix("FIRST ") {
        return fits_first(source, number, rest);
    }
    if let Some(rest) = words.strip_prefix("FIELD ") {
        return is_of_record(source, open) && fits_row(source, number, rest);
    }
    if let Some(rest) = words.strip_prefix("TOP ") {
        return open.is_none() && fits_row(source, number, rest);
    }
    fits_row(source, number, words)
}

/// What is written in place of the form that ends with the token with this number, where it is one of those that C++ and Flow have;
/// this bracket is open in front of it.
pub fn form_advice(source: Source<'_>, number: usize, open: Option<usize>) -> Option<&'static str> {
    for line in FORMS.lines() {
        if let Some((words, advice)) = line.split_once('|') {
            if fits(source, number, open, words) {
                return Some(advice);
            }
        }
    }
    None
}
