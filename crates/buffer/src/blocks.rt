// What the script program's two loops do: blocks of the input come, each is fed until no move is left, and the texts that this makes are the listing of
// the bytes read. The definitions are in specs/, the proofs in proofs/; the crate socket_script cites both. Of the code it has the test that ends the reading.
ghost use Rattle.std.specs.Prelude.{◌≡◌};
ghost use Rattle.buffer.specs.blocks.Drain.{reads_on};

// Whether more is to be read. 01 "Script program": a script that printed `stop N` or the line of a refused create has ended, and the program ends with it,
// whether or not the input has ended. It ends too where one more buffer, 131072 bytes, might take the bytes that are done with, `offset`, to 2 ^ 62;
// `feed` takes none above that.
#[tactic(auto, unfolding(crate::specs::blocks::Drain::reads_on, definition::specs::Status::pick))]
pub fn reads_on(ended: bool, offset: u64) -> bool
    ensures { result ≡ reads_on ended offset }
{
    !ended && offset < 4611686018427256832
}
