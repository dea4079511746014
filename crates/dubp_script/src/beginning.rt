ghost use Rattle.std.specs.Prelude.{◌≡◌, false};
ghost use Rattle.dubp_replay.specs.declared.command.Command.{Command as CommandValue};
ghost use Rattle.dubp_script.specs.Beginning.{begins_asking as is_asking, begins_command as is_begun, begins_change as is_change, begins_pending as is_pending};
ghost use Rattle.dubp_script.specs.Spelling.{Says};

/// Whether the line begins with the word of a command. One that does not is no command. It takes no memory, and looks at the first word alone.
pub fn begins_command(line: &[u8]) -> bool
    ensures is { result ≡ is_begun line.now }
    ensures none { result ≡ false → (c : CommandValue) → Says line.now c → ⊥ }
{
    begins(line)
}

fn begins(line: &[u8]) -> bool
    ensures { result ≡ is_begun line.now }
{
    begins_asking(line) || begins_change(line) || begins_pending(line)
}

// As a command that asks of the chain.
fn begins_asking(line: &[u8]) -> bool
    ensures { result ≡ is_asking line.now }
{
    line.starts_with(b"HEAD")
        || line.starts_with(b"MONEY")
        || line.starts_with(b"IDENTITY ")
        || line.starts_with(b"UID ")
        || line.starts_with(b"BALANCE ")
        || line.starts_with(b"DISTANCE ")
        || line.starts_with(b"DIFF ")
        || line.starts_with(b"CERTS ")
        || line.starts_with(b"SOURCES ")
        || line.starts_with(b"RECORDS ")
        || line.starts_with(b"SHOW ")
        || line.starts_with(b"STATEMENT ")
}

// As a command on blocks, verdicts and branches.
fn begins_change(line: &[u8]) -> bool
    ensures { result ≡ is_change line.now }
{
    line.starts_with(b"VERDICT ")
        || line.starts_with(b"BLOCK ")
        || line.starts_with(b"REVERT ")
        || line.starts_with(b"OFFER ")
        || line.starts_with(b"SWITCH ")
        || line.starts_with(b"FORGET ")
        || line.starts_with(b"AUTO ")
        || line.starts_with(b"FAILED")
}

// As a command on documents that wait.
fn begins_pending(line: &[u8]) -> bool
    ensures { result ≡ is_pending line.now }
{
    line.starts_with(b"PEND ") || line.starts_with(b"UNPEND ") || line.starts_with(b"FORGE ")
}
