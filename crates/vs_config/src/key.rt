//! The keys of a configuration.

ghost use Rattle.std.specs.Prelude.{◌≡◌};
ghost use Rattle.vs_config.specs.Key.{name_of};

/// A key of a configuration's text.
#[derive(Clone, Copy, Debug, PartialEq, Eq)]
pub enum ConfigKey {
    /// `bucket_count`
    BucketCount,
    /// `rebalancer_disbalance_threshold`
    RebalancerDisbalanceThreshold,
    /// `rebalancer_max_receiving`
    RebalancerMaxReceiving,
    /// `rebalancer_max_sending`
    RebalancerMaxSending,
    /// `set`
    Set,
    /// `uuid`, of a set
    Uuid,
    /// `weight`, of a set
    Weight,
    /// `lock`, of a set
    Lock,
    /// `name`, of a set
    Name,
    /// Any other key, or none: `other`
    Other,
}

impl ConfigKey {
    /// The key as a text has it, and `other` for any other.
    pub fn name(self) -> &'static str
        ensures { result.now ≡ name_of self }
    {
        match self {
            ConfigKey::BucketCount => "bucket_count",
            ConfigKey::RebalancerDisbalanceThreshold => "rebalancer_disbalance_threshold",
            ConfigKey::RebalancerMaxReceiving => "rebalancer_max_receiving",
            ConfigKey::RebalancerMaxSending => "rebalancer_max_sending",
            ConfigKey::Set => "set",
            ConfigKey::Uuid => "uuid",
            ConfigKey::Weight => "weight",
            ConfigKey::Lock => "lock",
            ConfigKey::Name => "name",
            ConfigKey::Other => "other",
        }
    }
}
