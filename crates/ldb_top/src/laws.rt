// What holds of conversations.

ghost use Rattle.ldb_top.specs.Conversed.{ConversationsAreJoined};

/// Where no line is passed, a conversation is one of the machine session, whose lines are joined to bytes, and each of these is one.
pub fn conversations_are_joined()
    ensures { ConversationsAreJoined }
{}
