//! Laws of what is in flight between nodes, at every script. Their functions do nothing.
ghost use Rattle.std.specs.Prelude.{◌≡◌, ℕ, List, Option, Some, None, slice_get};
ghost use Rattle.artery_base.specs.declared.address.Address.{Address};
ghost use Rattle.artery_base.specs.declared.address.UniqueAddress.{UniqueAddress};
ghost use Rattle.artery_control.specs.declared.control.Control.TheVariants as controls;
ghost use Rattle.artery_script.specs.declared.script.ScriptLine.{ScriptLine};
ghost use Rattle.artery_machine.specs.Deeds.{Controls};
ghost use Rattle.artery_machine.specs.Parts.{whole};
ghost use Rattle.artery_machine.specs.Ways.{Wrote, bytes_on, whole_ways};
ghost use Rattle.artery_machine.specs.Connections.{Connection};
ghost use Rattle.artery_machine.specs.World.{Live};
ghost use Rattle.artery_machine.specs.Playing.{run};
ghost use Rattle.artery_flight.specs.Flight.{IsInFlight, IsRequestOn, AreBytesOf, WereHadOf, had_on, ControlIsReadBack, OrdinaryIsReadBack};
ghost use Rattle.artery_flight.specs.Names.{AreSingle, Counts};
ghost use Rattle.artery_frame.specs.declared.stream.Stream.{Stream};
ghost use Rattle.artery_handshake.specs.declared.out_conn.OutConn.{OutConn};
ghost use Rattle.artery_handshake.specs.declared.out_conn.OutState.TheVariants.{Bound};
ghost use Rattle.artery_handshake.specs.declared.in_conn.InState.TheVariants.{Known};
ghost use Rattle.artery_machine.specs.Node.{Peer, Inbound, conn_of, inbound_at};
ghost use Rattle.std.specs.Prelude.{◌++◌, ◌∷◌};
ghost use Rattle.artery_base.specs.declared.message.SysMsg.{SysMsg};
ghost use Rattle.artery_journal.specs.declared.line.Line.TheVariants as lines;
ghost use Rattle.artery_judge.specs.Lines.{Entry};
ghost use Rattle.artery_flight.specs.Numbers.{lines_in, numbers_sent, AreNumbered, WasSent, IsSentOn};
ghost use Rattle.artery_flight.specs.Answers.{AreReadBack, Reaches, WasDialed, IsAnswerOn, WereDelivered};

/// For every script, what was written on a connection of the network is nothing, or its preamble and behind it frames, each with the bytes of
/// its message, and no more bytes were delivered than were written. So all its bytes are the preamble and then canonical frames in order, and
/// the frames that the far side had are the first of these, where none is too long.
pub fn frames_are_in_flight()
    ensures written { (script : List ScriptLine) (i : ℕ) (c : Connection whole_ways) → slice_get (run {P = whole} {W = whole_ways} script).world.connections i ≡ Some c
        → IsInFlight c }
    ensures bytes { (script : List ScriptLine) (i : ℕ) (c : Connection whole_ways) → slice_get (run {P = whole} {W = whole_ways} script).world.connections i ≡ Some c
        → AreBytesOf c.dialer (bytes_on c.way) c.way.all }
    ensures had { (script : List ScriptLine) (i : ℕ) (c : Connection whole_ways) → slice_get (run {P = whole} {W = whole_ways} script).world.connections i ≡ Some c
        → WereHadOf c.dialer (had_on c) c.way.all }
{
    artery_frame::one_reading();
}

/// For every script, each handshake request that was written on a connection bears the UID of who dialed it, and the number of that dial as its
/// nonce.
pub fn requests_bear_their_dial()
    ensures { (script : List ScriptLine) (i j : ℕ) (c : Connection whole_ways) (x : Wrote) (from : UniqueAddress) (to : Address) (its_nonce : Option ℕ)
        → slice_get (run {P = whole} {W = whole_ways} script).world.connections i ≡ Some c → slice_get c.way.all j ≡ Some x
        → x.writing ≡ Controls (controls.HandshakeReq from to its_nonce) → IsRequestOn c from its_nonce }
{}

/// A frame that was written is read back: that of a valid control message as its envelope and as the message, and that of an ordinary message as
/// the envelope that it is.
pub fn frames_are_read_back()
    ensures control { ControlIsReadBack }
    ensures ordinary { OrdinaryIsReadBack }
{
    artery_control_frame::control_frame_is_read();
    artery_header::written_is_read();
}

/// For every script, who dialed and the number of the dial name one connection or one pending dial of the network, and so do the incarnation
/// that a connection reaches and its number there. As long as the network has not ended at a limit, a live incarnation counts the connections
/// that reached it, and no dial of its bears a number above its count of dials.
pub fn names_are_single()
    ensures single { (script : List ScriptLine) → AreSingle (run {P = whole} {W = whole_ways} script).world }
    ensures counted { (script : List ScriptLine) (i : ℕ) (l : Live whole) → (run {P = whole} {W = whole_ways} script).world.ended ≡ None
        → slice_get (run {P = whole} {W = whole_ways} script).world.live i ≡ Some l → Counts (run {P = whole} {W = whole_ways} script).world l }
{}

/// For every script in whose network each frame that was written is read back: each answer to a handshake bears the UID of who dialed the
/// connection on which it was written, and it names a connection by the UID of its dialer and the number of its dial, and that connection
/// reaches the one that answers.
pub fn answers_name_their_connection()
    ensures { (script : List ScriptLine) → AreReadBack (run {P = whole} {W = whole_ways} script).world.connections
        → (i j : ℕ) (c : Connection whole_ways) (x : Wrote) (from : UniqueAddress) (for_uid its_nonce : Option ℕ)
        → slice_get (run {P = whole} {W = whole_ways} script).world.connections i ≡ Some c → slice_get c.way.all j ≡ Some x
        → x.writing ≡ Controls (controls.HandshakeRsp from for_uid its_nonce)
        → IsAnswerOn (run {P = whole} {W = whole_ways} script).world.connections c from for_uid its_nonce }
{}

/// For every such script, as long as its network has not ended at a limit: an own connection of a live incarnation that is bound to a UID
/// reaches the incarnation with that UID.
pub fn bound_connections_reach_their_uid()
    ensures { (script : List ScriptLine) → (run {P = whole} {W = whole_ways} script).world.ended ≡ None
        → AreReadBack (run {P = whole} {W = whole_ways} script).world.connections
        → (i j : ℕ) (l : Live whole) (p : Peer whole) (stream : Stream) (c : OutConn) (uid : ℕ)
        → slice_get (run {P = whole} {W = whole_ways} script).world.live i ≡ Some l → slice_get l.node.peers j ≡ Some p
        → conn_of stream p ≡ Some c → c.state ≡ Bound uid
        → Reaches (run {P = whole} {W = whole_ways} script).world.connections l.node.me.uid c.dial uid }
{}

/// For every such script, as long as its network has not ended at a limit: an inbound connection of a live incarnation on which it is known
/// who speaks was dialed by that one, and the nonce is the number of the dial.
pub fn known_connections_were_dialed()
    ensures { (script : List ScriptLine) → (run {P = whole} {W = whole_ways} script).world.ended ≡ None
        → AreReadBack (run {P = whole} {W = whole_ways} script).world.connections
        → (i j : ℕ) (l : Live whole) (n : Inbound whole) (who : UniqueAddress) (its_nonce : Option ℕ)
        → slice_get (run {P = whole} {W = whole_ways} script).world.live i ≡ Some l → slice_get l.node.inbound j ≡ Some n
        → n.state ≡ Known who its_nonce
        → WasDialed (run {P = whole} {W = whole_ways} script).world.connections l.node.me.uid n.number who its_nonce }
{}

/// For every such script, as long as its network has not ended at a limit: the bytes that a live incarnation had of an inbound connection are
/// those that were delivered on the connection that reaches it under this number.
pub fn what_came_was_delivered()
    ensures { (script : List ScriptLine) → (run {P = whole} {W = whole_ways} script).world.ended ≡ None
        → AreReadBack (run {P = whole} {W = whole_ways} script).world.connections
        → (i k : ℕ) (l : Live whole) (n : Inbound whole)
        → slice_get (run {P = whole} {W = whole_ways} script).world.live i ≡ Some l → inbound_at k l.node ≡ Some n
        → WereDelivered (run {P = whole} {W = whole_ways} script).world.connections l.node.me.uid k n.bytes }
{}

/// For every script, the numbers of the messages that an incarnation told it sent to another are 1, 2, 3 and so on, in the order of its lines.
pub fn messages_are_sent_in_order()
    ensures { (script : List ScriptLine) (a b : UniqueAddress) → AreNumbered (numbers_sent a b (lines_in (run {P = whole} {W = whole_ways} script).world.outcomes)) }
{}

/// For every script in whose network each frame that was written is read back: a numbered message on a connection was told as sent, by the one
/// that it says, to the incarnation that the connection reaches.
pub fn numbers_are_in_flight()
    ensures { (script : List ScriptLine) → AreReadBack (run {P = whole} {W = whole_ways} script).world.connections
        → (i j : ℕ) (c : Connection whole_ways) (x : Wrote) (n : ℕ) (m : SysMsg) (from : UniqueAddress)
        → slice_get (run {P = whole} {W = whole_ways} script).world.connections i ≡ Some c → slice_get c.way.all j ≡ Some x
        → x.writing ≡ Controls (controls.Numbered n m from)
        → IsSentOn c.far from n m (lines_in (run {P = whole} {W = whole_ways} script).world.outcomes) }
{}

/// For every such script: each message that an incarnation took from another, by a line, that other told before as sent to it, with this number.
pub fn what_is_taken_was_sent()
    ensures { (script : List ScriptLine) → AreReadBack (run {P = whole} {W = whole_ways} script).world.connections
        → (before after : List Entry) (e : Entry) (a b : UniqueAddress) (n : ℕ) (m : SysMsg)
        → lines_in (run {P = whole} {W = whole_ways} script).world.outcomes ≡ before ++ e ∷ after → e.1 ≡ lines.Took b a n m
        → WasSent a b n m before }
{}
