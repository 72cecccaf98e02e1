// Each law is the contract of a function that does nothing.
ghost use Rattle.command_family.specs.Family.{IsLawfulFamily};
ghost use Rattle.cert_commands.specs.Family.{certificates};

/// The command that writes a certificate is a lawful family.
pub fn certificates_law()
    ensures { IsLawfulFamily certificates }
{}
