// The lister: prints the offset and the name of each good known record of standard input, and then its verdict.
#![tactic(auto)]

use cgx_list_io::list_from;
use std::io;

fn main(rt: HostRuntime) -> io::Result<()> {
    list_from(&mut rt.stdin(), &mut rt.stdout())
}
