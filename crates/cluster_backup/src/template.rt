// Which packets there are.
ghost use Rattle.std.specs.Prelude.{◌≡◌, ◌<◌, ◌^◌};
ghost use Rattle.cluster_backup.specs.Templates.{template_by};

/// The templates of the packets.
#[derive(Clone, Copy, Debug, PartialEq, Eq)]
pub enum Template {
    Query,
    Log,
    Snapshot,
}

impl Template {
    /// The template of a number.
    pub fn of(number: u16) -> Option<Template>
        ensures { result ≡ template_by number }
    {
        match number {
            56 => Some(Template::Query),
            57 => Some(Template::Log),
            58 => Some(Template::Snapshot),
            _ => None,
        }
    }
}
