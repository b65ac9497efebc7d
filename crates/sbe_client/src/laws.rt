// What is written is read again.
ghost use Rattle.sbe_client.specs.declared.ingress.Ingress.{Ingress};
ghost use Rattle.sbe_client.specs.declared.egress.Egress.{Egress};
ghost use Rattle.sbe_client.specs.Spelling.{ingress_spelling_of, HasIngressSpelling, IngressFits, egress_spelling_of, HasEgressSpelling, EgressFits};
ghost use Rattle.sbe_client.specs.Reading.{ReadsIngress, ReadsEgress};

/// The bytes of a message to the cluster read as that message.
pub fn ingress_is_read_again()
    ensures { (m : Ingress) → HasIngressSpelling m → IngressFits m → ReadsIngress (ingress_spelling_of m) m }
{}

/// The bytes of a message to a client read as that message.
pub fn egress_is_read_again()
    ensures { (m : Egress) → HasEgressSpelling m → EgressFits m → ReadsEgress (egress_spelling_of m) m }
{}
