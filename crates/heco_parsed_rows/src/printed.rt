use crate::text::text_of;
use heco_nums::{Bytes, Memory};
use heco_parse::{parse, print};
use std::alloc::Global;
use std::test::Fail;

// A source, and the text of its tree.
const ROWS: &str = "params p8;fn f(){}|params p8 ; fn f ( ) { }~
params p8; fn f(in x, out y[3]) {~y = -x*x + (x - 1) - (x - (1 + 2)) + (x*x) + 007; } // the end|params p8 ; fn f ( in x , out y [ 3 ] ) { y = - x * x + ( x - 1 ) - ( x - ( 1 + 2 ) ) + x * x + 7 ; }~
params p8; fn f(in x, out y) { y[(1)] += (x*2)*-(x)*(x+x)*-(x*x); }|params p8 ; fn f ( in x , out y ) { y [ 1 ] += ( x * 2 ) * - x * ( x + x ) * - ( x * x ) ; }~
params p8; fn f(in x, out y) { for i in 0..3 { int w[2]={1,2}; int k=i; secret s; secret t[3]; secret u=x; y -= w[i]; y *= 2; } }|params p8 ; fn f ( in x , out y ) { for i in 0 .. 3 { int w [ 2 ] = { 1 , 2 } ; int k = i ; secret s ; secret t [ 3 ] ; secret u = x ; y -= w [ i ] ; y *= 2 ; } }~
params p8; def sq(x)=x*x; def k(a,b) = (a+b)*2; fn f(in a, in b, out y) { y = sq(a+b)*-k((1),a*(b)); if y-1 { } if (1) { y = sq(sq(a)); } else { y = 1; } }|params p8 ; def sq ( x ) = x * x ; def k ( a , b ) = ( a + b ) * 2 ; fn f ( in a , in b , out y ) { y = sq ( a + b ) * - k ( 1 , a * b ) ; if y - 1 { } if 1 { y = sq ( sq ( a ) ) ; } else { y = 1 ; } }~";

fn printed(alloc: Global, text: &[u8]) -> Result<Bytes, Memory> {
    match parse(alloc, text) {
        Ok(source) => print(alloc, &source),
        Err(_) => Err(Memory),
    }
}

fn holds(alloc: Global, row: &str) -> Result<bool, Fail> {
    let (field, wanted) = row.split_once('|').ok_or("no text")?;
    let wanted = text_of(alloc, wanted)?;
    let line = printed(alloc, text_of(alloc, field)?.as_slice())?;
    let again = printed(alloc, line.as_slice())?;
    Ok(line.as_slice() == wanted.as_slice() && again.as_slice() == wanted.as_slice())
}

#[test]
fn printed_sources(rt: HostRuntime) -> Result<(), Fail> {
    for row in ROWS.lines() {
        assert!(rt; holds(rt.alloc(), row)?, "{row}");
    }
    Ok(())
}
