//! Monitors as texts, each in canonical form.

/// A buffer of one place.
pub const BUFFER: &[u8] = b"monitor Buffer {
  const CAP = 1;
  int count = 0;
  method put() waituntil (count < CAP) {
    count = count + 1;
  }
  method get() waituntil (count > 0) {
    count = count - 1;
  }
}
";

/// A lock that whoever likes may release.
pub const LOCK: &[u8] = b"monitor Lock {
  bool held = false;
  method acquire() waituntil (!held) {
    held = true;
  }
  method release() waituntil (held) {
    held = false;
  }
}
";

/// Readers and writers, where readers go first.
pub const READERS_AND_WRITERS: &[u8] = b"monitor RW {
  int readers = 0;
  bool writing = false;
  method startRead() waituntil (!writing) {
    readers = readers + 1;
  }
  method endRead() waituntil (readers > 0) {
    readers = readers - 1;
  }
  method startWrite() waituntil (readers == 0 && !writing) {
    writing = true;
  }
  method endWrite() waituntil (writing) {
    writing = false;
  }
}
";

/// A number at its end, which every call overflows.
pub const UP: &[u8] = b"monitor Up {
  int x = 9223372036854775807;
  method inc() waituntil (x > 0) {
    x = x + 1;
  }
}
";

/// A gate that one client opens, where whoever goes through overflows.
pub const GATE: &[u8] = b"monitor Gate {
  bool go = false;
  int x = 9223372036854775807;
  method take() waituntil (go) {
    go = false;
    x = x + 1;
  }
  method fire() waituntil (true) {
    go = true;
  }
}
";

/// A level that clients wait for, each for its own.
pub const LEVEL: &[u8] = b"monitor Level {
  int count = 0;
  method reach(int n) waituntil (n <= count) {
  }
  method add() waituntil (true) {
    count = count + 1;
  }
}
";

/// A guard that is a sum of two fields.
pub const SUM: &[u8] = b"monitor Sum {
  int x = 0;
  int y = 0;
  method step() waituntil (x + y <= 4) {
    x = x + 1;
  }
}
";

/// Replies of both kinds, and an `if`.
pub const ACCUMULATOR: &[u8] = b"monitor Acc {
  int sum = 0;
  method add(int n) waituntil (true) {
    sum = sum + n;
    return sum;
  }
  method big() waituntil (true) {
    return sum > 5;
  }
  method cap(int n) waituntil (true) {
    if (n > 9) {
      sum = 9;
    } else {
      sum = n;
    }
  }
}
";

/// A method of two blocks: the second waits until another client was at the first after it.
pub const TWICE: &[u8] = b"monitor Twice {
  int level = 0;
  method pair()
    local int seen = 0;
    waituntil (true) {
      seen = level;
      level = level + 1;
    }
    waituntil (level > seen + 1) {
      return seen;
    }
}
";

/// Two meet in each round: who comes first waits until its round is over.
pub const MEETING: &[u8] = b"monitor Meeting {
  int waiting = 0;
  int round = 0;
  method meet()
    local int mine = 0;
    waituntil (true) {
      mine = round;
      waiting = waiting + 1;
      if (waiting == 2) {
        waiting = 0;
        round = round + 1;
      }
    }
    waituntil (round > mine) {
    }
}
";
