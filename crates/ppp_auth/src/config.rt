use ppp_base::Name;

/// Under which names a link's ends prove themselves.
#[derive(Debug, Drop)]
pub struct AuthConfig {
    /// Our name, under which we ask the peer, and by which its secret is looked up.
    pub name: Name,
    /// The name by which we prove ourselves.
    pub user: Name,
    /// Our secret. None: that of the secrets.
    pub password: Option<Name>,
    /// The peer's name, for our secret. None, or empty: that in its challenge, or for PAP the empty name.
    pub remotename: Option<Name>,
}
