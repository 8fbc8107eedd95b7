ghost use Rattle.types_laws.specs.Faulted.{FaultsAreGiven, DeclarationsHaveFaults};

/// A tree stands, or it has a fault; and so do its declarations.
pub fn faults_are_given()
    ensures whole { FaultsAreGiven }
    ensures declarations { DeclarationsHaveFaults }
{}
