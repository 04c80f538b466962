//! The law of what is written, at every script that a text tells. Its function does nothing.
ghost use Rattle.std.specs.Prelude.{List};
ghost use Rattle.artery_script.specs.declared.script.ScriptLine.{ScriptLine};
ghost use Rattle.artery_machine.specs.Parts.{whole};
ghost use Rattle.artery_machine.specs.Ways.{whole_ways};
ghost use Rattle.artery_machine.specs.Playing.{run};
ghost use Rattle.artery_flight.specs.Answers.{AreReadBack};
ghost use Rattle.artery_written.specs.Told.{AreTold};

/// For every script whose events a line can tell, each frame that was written in its network is read back as its message: none is too long, and
/// no text or number in it is outside its range.
pub fn what_is_written_is_read_back()
    ensures { (script : List ScriptLine) → AreTold script → AreReadBack (run {P = whole} {W = whole_ways} script).world.connections }
{
    artery_flight::frames_are_read_back();
}
