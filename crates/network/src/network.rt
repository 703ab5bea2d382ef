// The state and the tables of a network, known to be sound.
ghost use Rattle.model.proofs.Sound.{Sound};
ghost use Rattle.model.proofs.SoundProp.{Sound-prop};

#[derive(Clone, Copy)]
pub struct Network<'a> {
    pub state: &'a [u64],
    pub tables: &'a [u8],
    ghost sound: { Sound state.now tables.now } by { Sound-prop state.now tables.now },
}
