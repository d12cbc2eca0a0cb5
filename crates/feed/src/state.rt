// Where a script stands before its first record.
ghost use Rattle.std.specs.Prelude.{◌≡◌};
ghost use Rattle.definition_script.specs.Listing.{start_state};

use definition_script::ScriptState;
use socket::SocketPair;

// No record has been run. The pair is what a refused create hands back.
pub fn start() -> ScriptState
    ensures { result ≡ start_state }
{
    let ring = [0u8; 1];
    let table = [0u32; 1];
    let s = SocketPair::create(0, 0, 0, 0, &ring, &table, &ring, &table);
    let q = s.pair;
    let pair = q.inner;
    ScriptState {
        pair,
        number: 0,
        ended: false,
    }
}
